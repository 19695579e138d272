ghost use Rattle.std.specs.Prelude.{◌≡◌, ◌++◌, ◌∷◌, [], IfOk, OnOk};
ghost use Rattle.std.specs.List.{flat_map, list_any};
ghost use Rattle.std.specs.Str.{bytes_eq, str_to_ascii_lowercase};
ghost use Rattle.service_environments.specs.EnvItems.{env_item, env_items, is_required, item_at, item_with, items_of, no_words, says_no};
ghost use Rattle.tree_base.specs.declared.Tree.{out-Tree};

use loaded_files::text_at;
use std::alloc::Global;
use tree_base::{List, Map, Memory, Text, Tree};

/// The words that say no.
const NO_WORDS: [&str; 4] = ["false", "no", "off", "n"];

/// An env file of a service, and whether it has to be there.
#[derive(Drop)]
pub struct EnvItem {
    pub path: Text,
    pub required: bool,
}

/// The env files of a service, in order.
pub(crate) fn items_of(alloc: Global, service: &Map) -> Result<List<EnvItem>, Memory>
    ensures { IfOk result (λ items. items ≡ items_of service.now) }
{
    match service.find("env_file") {
        Some(tree) => env_items(alloc, tree),
        None => Ok(List::new(alloc)),
    }
}

/// What `env_file` names, in order.
fn env_items(alloc: Global, tree: &Tree) -> Result<List<EnvItem>, Memory>
    ensures { IfOk result (λ items. items ≡ env_items (out-Tree tree.now)) }
{
    let mut items = List::new(alloc);
    match tree {
        Tree::Scalar(path) => push_item(alloc, &mut items, path, true)?,
        Tree::Seq(found) => push_items(alloc, &mut items, found.as_slice())?,
        _ => {}
    }
    Ok(items)
}

/// Puts the env files of a sequence behind others.
fn push_items(alloc: Global, items: &mut List<EnvItem>, found: &[Tree]) -> Result<(), Memory>
    ensures { OnOk result
        (items.new ≡ items.old ++ flat_map (λ item. env_item (out-Tree item)) found.now) }
{
    for item in found {
        push_one(alloc, items, item)?;
    }
    Ok(())
}

/// Puts the env file of an item behind others.
fn push_one(alloc: Global, items: &mut List<EnvItem>, item: &Tree) -> Result<(), Memory>
    ensures { OnOk result (items.new ≡ items.old ++ env_item (out-Tree item.now)) }
{
    match item {
        Tree::Scalar(path) => push_item(alloc, items, path, true),
        Tree::Map(fields) => push_long(alloc, items, fields.get()),
        _ => Ok(()),
    }
}

/// Puts an env file in its long form behind others.
fn push_long(alloc: Global, items: &mut List<EnvItem>, fields: &Map) -> Result<(), Memory>
    ensures { OnOk result (items.new ≡ items.old ++ item_with fields.now) }
{
    match text_at(fields, "path") {
        Some(path) => push_item(alloc, items, path, is_required(fields)),
        None => Ok(()),
    }
}

fn push_item(
    alloc: Global,
    items: &mut List<EnvItem>,
    path: &Text,
    required: bool,
) -> Result<(), Memory>
    ensures { OnOk result (items.new ≡ items.old ++ item_at required path.now ∷ []) }
{
    let path = path.copy(alloc)?;
    items.push(EnvItem { path, required })
}

/// Whether a file has to be there: unless `required` says no.
fn is_required(fields: &Map) -> bool
    ensures { result ≡ is_required fields.now }
{
    match text_at(fields, "required") {
        Some(text) => !says_no(text),
        None => true,
    }
}

/// Whether a text says no, in any case.
fn says_no(text: &Text) -> bool
    ensures { result ≡ says_no text.now }
{
    is_no_word(text.as_str())
}

fn is_no_word(text: &str) -> bool
    ensures { result ≡ list_any (bytes_eq (str_to_ascii_lowercase text.now)) no_words }
{
    is_one_of(text, &NO_WORDS)
}

fn is_one_of(text: &str, words: &[&str]) -> bool
    ensures { result ≡ list_any (λ word. bytes_eq (str_to_ascii_lowercase text.now)
        (str_to_ascii_lowercase word.now)) words.now }
{
    words.iter().any(|word| is_same_word(text, word))
}

fn is_same_word(text: &str, word: &str) -> bool
    ensures { result ≡ bytes_eq (str_to_ascii_lowercase text.now)
        (str_to_ascii_lowercase word.now) }
{
    text.eq_ignore_ascii_case(word)
}
