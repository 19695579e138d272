ghost use Rattle.std.specs.Prelude.{◌≡◌, ◌||◌};
ghost use Rattle.std.specs.List.{list_all, list_any};
ghost use Rattle.std.specs.Str.{bytes_eq, str_to_ascii_lowercase};
ghost use Rattle.file_paths.specs.Shapes.{are_of_env_file, are_of_extends, are_of_include, are_texts, fits, flag_words, has, has_if, is_env_file, is_env_file_key, is_flag, is_include, is_mapping, is_null, is_scalar, mapping_of, or_null, record_with, sequence_of};
ghost use Rattle.tree_base.specs.declared.Tree.{out-Tree};

use tree_base::{Map, Text, Tree};

/// The words that say yes or no.
const FLAG_WORDS: [&str; 8] = ["true", "yes", "on", "y", "false", "no", "off", "n"];

/// What may stand at an attribute that loading reads, beside null.
#[derive(Clone, Copy, PartialEq, Eq, Drop)]
pub enum Form {
    /// A text.
    Text,
    /// A sequence of texts.
    Texts,
    /// A mapping.
    Section,
    /// The items of `include`: texts, and mappings with a path.
    Includes,
    /// Of `depends_on`: names, with mappings or nothing.
    Needs,
    /// Of `env_file`: a text, or a sequence of texts and of mappings with a path.
    EnvFiles,
    /// Of `environment`: names, with texts or nothing.
    Settings,
    /// Of `extends`: a text, or a mapping with a service.
    Extends,
}

/// Whether a tree has a form.
pub(crate) fn fits(form: Form, tree: &Tree) -> bool
    ensures { result ≡ fits form (out-Tree tree.now) }
{
    match form {
        Form::Text => is_scalar(tree),
        Form::Texts => are_scalars(tree),
        Form::Section => is_mapping(tree),
        Form::Includes => are_includes(tree),
        Form::Needs => is_needs(tree),
        Form::EnvFiles => are_env_files(tree),
        Form::Settings => is_settings(tree),
        Form::Extends => is_extends(tree),
    }
}

/// Whether a tree is null.
pub(crate) fn is_null(tree: &Tree) -> bool
    ensures { result ≡ is_null (out-Tree tree.now) }
{
    matches!(tree, Tree::Null)
}

/// Whether a tree is a scalar.
fn is_scalar(tree: &Tree) -> bool
    ensures { result ≡ is_scalar (out-Tree tree.now) }
{
    matches!(tree, Tree::Scalar(_))
}

/// Whether a tree is a mapping.
fn is_mapping(tree: &Tree) -> bool
    ensures { result ≡ is_mapping (out-Tree tree.now) }
{
    matches!(tree, Tree::Map(_))
}

/// Whether a tree is a sequence of scalars.
fn are_scalars(tree: &Tree) -> bool
    ensures { result ≡ sequence_of is_scalar (out-Tree tree.now) }
{
    match tree {
        Tree::Seq(items) => all_scalars(items.as_slice()),
        _ => false,
    }
}

fn all_scalars(items: &[Tree]) -> bool
    ensures { result ≡ list_all (λ item. is_scalar (out-Tree item)) items.now }
{
    items.iter().all(is_scalar)
}

/// Whether a tree is a text, or a sequence of texts.
fn are_texts(tree: &Tree) -> bool
    ensures { result ≡ are_texts (out-Tree tree.now) }
{
    is_scalar(tree) || are_scalars(tree)
}

/// Whether a tree is what may stand at `depends_on`.
fn is_needs(tree: &Tree) -> bool
    ensures { result ≡ mapping_of (or_null is_mapping) (out-Tree tree.now) }
{
    match tree {
        Tree::Map(needs) => all_needs(needs.get().values()),
        _ => false,
    }
}

fn all_needs(needs: &[Tree]) -> bool
    ensures { result ≡ list_all (λ need. or_null is_mapping (out-Tree need)) needs.now }
{
    needs.iter().all(|need| is_null(need) || is_mapping(need))
}

/// Whether a tree is what may stand at `environment`.
fn is_settings(tree: &Tree) -> bool
    ensures { result ≡ mapping_of (or_null is_scalar) (out-Tree tree.now) }
{
    match tree {
        Tree::Map(settings) => all_settings(settings.get().values()),
        _ => false,
    }
}

fn all_settings(values: &[Tree]) -> bool
    ensures { result ≡ list_all (λ value. or_null is_scalar (out-Tree value)) values.now }
{
    values
        .iter()
        .all(|value| is_null(value) || is_scalar(value))
}

/// Whether a tree is what may stand at `include`.
fn are_includes(tree: &Tree) -> bool
    ensures { result ≡ sequence_of is_include (out-Tree tree.now) }
{
    match tree {
        Tree::Seq(items) => all_includes(items.as_slice()),
        _ => false,
    }
}

fn all_includes(items: &[Tree]) -> bool
    ensures { result ≡ list_all (λ item. is_include (out-Tree item)) items.now }
{
    items.iter().all(is_include)
}

fn is_include(tree: &Tree) -> bool
    ensures { result ≡ is_include (out-Tree tree.now) }
{
    match tree {
        Tree::Scalar(_) => true,
        Tree::Map(entries) => are_of_include(entries.get()),
        _ => false,
    }
}

fn are_of_include(entries: &Map) -> bool
    ensures { result ≡ are_of_include entries.now }
{
    has_texts(entries, "path")
        && may_have_text(entries, "project_directory")
        && may_have_texts(entries, "env_file")
}

/// Whether a tree is what may stand at `env_file`.
fn are_env_files(tree: &Tree) -> bool
    ensures { result ≡ (is_scalar (out-Tree tree.now)
        || sequence_of is_env_file (out-Tree tree.now)) }
{
    match tree {
        Tree::Scalar(_) => true,
        Tree::Seq(items) => all_env_files(items.as_slice()),
        _ => false,
    }
}

fn all_env_files(items: &[Tree]) -> bool
    ensures { result ≡ list_all (λ item. is_env_file (out-Tree item)) items.now }
{
    items.iter().all(is_env_file)
}

fn is_env_file(tree: &Tree) -> bool
    ensures { result ≡ is_env_file (out-Tree tree.now) }
{
    match tree {
        Tree::Scalar(_) => true,
        Tree::Map(entries) => are_of_env_file(entries.get()),
        _ => false,
    }
}

fn are_of_env_file(entries: &Map) -> bool
    ensures { result ≡ are_of_env_file entries.now }
{
    has_text(entries, "path")
        && may_have_flag(entries, "required")
        && all_env_file_keys(entries.keys())
}

fn all_env_file_keys(keys: &[Text]) -> bool
    ensures { result ≡ list_all is_env_file_key keys.now }
{
    keys.iter().all(is_env_file_key)
}

fn is_env_file_key(key: &Text) -> bool
    ensures { result ≡ is_env_file_key key.now }
{
    key.as_str() == "path" || key.as_str() == "required"
}

/// Whether a tree is a word that says yes or no.
fn is_flag(tree: &Tree) -> bool
    ensures { result ≡ is_flag (out-Tree tree.now) }
{
    match tree {
        Tree::Scalar(text) => is_flag_word(text.as_str()),
        _ => false,
    }
}

fn is_flag_word(text: &str) -> bool
    ensures { result ≡ list_any (bytes_eq (str_to_ascii_lowercase text.now)) flag_words }
{
    is_one_of(text, &FLAG_WORDS)
}

fn is_one_of(text: &str, words: &[&str]) -> bool
    ensures { result ≡ list_any (λ word. bytes_eq (str_to_ascii_lowercase text.now)
        (str_to_ascii_lowercase word.now)) words.now }
{
    words.iter().any(|word| is_same_word(text, word))
}

fn is_same_word(text: &str, word: &str) -> bool
    ensures { result ≡ bytes_eq (str_to_ascii_lowercase text.now)
        (str_to_ascii_lowercase word.now) }
{
    text.eq_ignore_ascii_case(word)
}

/// Whether a tree is what may stand at `extends`.
fn is_extends(tree: &Tree) -> bool
    ensures { result ≡ (is_scalar (out-Tree tree.now)
        || record_with are_of_extends (out-Tree tree.now)) }
{
    match tree {
        Tree::Scalar(_) => true,
        Tree::Map(entries) => are_of_extends(entries.get()),
        _ => false,
    }
}

fn are_of_extends(entries: &Map) -> bool
    ensures { result ≡ are_of_extends entries.now }
{
    has_text(entries, "service") && may_have_text(entries, "file")
}

/// Whether a text stands at a key.
fn has_text(entries: &Map, key: &str) -> bool
    ensures { result ≡ has key.now is_scalar entries.now }
{
    match entries.find(key) {
        Some(tree) => is_scalar(tree),
        None => false,
    }
}

/// Whether a text or texts stand at a key.
fn has_texts(entries: &Map, key: &str) -> bool
    ensures { result ≡ has key.now are_texts entries.now }
{
    match entries.find(key) {
        Some(tree) => are_texts(tree),
        None => false,
    }
}

/// Whether what stands at a key, if anything, is null or a text.
fn may_have_text(entries: &Map, key: &str) -> bool
    ensures { result ≡ has_if key.now (or_null is_scalar) entries.now }
{
    match entries.find(key) {
        Some(tree) => is_null(tree) || is_scalar(tree),
        None => true,
    }
}

/// Whether what stands at a key, if anything, is null, a text or texts.
fn may_have_texts(entries: &Map, key: &str) -> bool
    ensures { result ≡ has_if key.now (or_null are_texts) entries.now }
{
    match entries.find(key) {
        Some(tree) => is_null(tree) || are_texts(tree),
        None => true,
    }
}

/// Whether what stands at a key, if anything, is null or a word that says yes or no.
fn may_have_flag(entries: &Map, key: &str) -> bool
    ensures { result ≡ has_if key.now (or_null is_flag) entries.now }
{
    match entries.find(key) {
        Some(tree) => is_null(tree) || is_flag(tree),
        None => true,
    }
}
