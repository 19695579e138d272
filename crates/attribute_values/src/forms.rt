ghost use Rattle.std.specs.Prelude.{◌≡◌, ◌++◌, ◌∷◌, [], IfOk, Ok, codes, map};
ghost use Rattle.std.specs.List.{list_any};
ghost use Rattle.std.specs.Option.{option_map, option_to_list};
ghost use Rattle.short_forms.specs.Decimals.{decimal_of};
ghost use Rattle.short_forms.specs.Durations.{duration_of};
ghost use Rattle.short_forms.specs.PortLaws.{published_in, target_in};
ghost use Rattle.short_forms.specs.Sizes.{size_of};
ghost use Rattle.tree_base.specs.declared.Step.TheVariants.{Key};
ghost use Rattle.tree_base.specs.declared.Tree.{out-Tree};
ghost use Rattle.tree_base.specs.declared.Tree.TheOpen.{Tree-F};
ghost use Rattle.attribute_types.specs.Answers.{Gives, under};
ghost use Rattle.attribute_types.specs.declared.attribute.Value.{Value};
ghost use Rattle.attribute_types.specs.declared.form.Plain.{Plain};
ghost use Rattle.attribute_values.specs.Forms.{bind_option, bind_value, external_among, first_label, flag, found_or_other, has_networks, is_bind, is_filled, is_of_own, items_of, kept, kept_if_any, label_in, labels_of, made_path, no_options, plain_value, source_of, test_of};
ghost use Rattle.attribute_scalars.specs.Lists.{if_any};
ghost use Rattle.attribute_scalars.specs.Scalars.{accepted, bool_of, has_form, has_no_colon, if_passes, int_of, is_word_of, num_of, text_of, written};
ghost use Rattle.attribute_scalars.specs.Views.{behind, if_one, onto, seen_entry};
ghost use Rattle.attribute_scalars.specs.Walks.{each_entry, is_in};

use crate::deploy::{deployed, scale_among};
use attribute_scalars::{
    Entry, all_formed, as_test, bool_of, decimal_of, duration_of, entries_of, has_no_colon,
    in_byte_order, int_of, is_null, is_word_of, labels_of, mapping_in, num_of, pairs_of, refused,
    size_of, target_of, text_of, texts_of, under_key, value_among,
};
use attribute_types::{AttributeRefusal, Fault, ItemForm, Pairs, Plain, Value, WordSet};
use short_forms::published_as;
use std::alloc::Global;
use tree_base::{List, Map, Memory, Text, Tree};

/// The value of a tree that isn't null, by the form of its attribute and what stands beside it; None where it is as good as
/// none. Refuses `WrongKind` for a tree of another kind, and `BadValue` for one of this kind that the attribute may not have.
pub fn plain_value(
    alloc: Global,
    plain: Plain,
    beside: &[Entry],
    tree: &Tree,
) -> Result<Option<Value>, AttributeRefusal>
    ensures { Gives result
        (plain_value plain (map seen_entry beside.now) tree.now (out-Tree tree.now)) }
{
    match plain {
        Plain::Text => text_value(alloc, tree),
        Plain::Bool => unmade(alloc, bool_value(tree)),
        Plain::Flag => Ok(flag(set_flag(alloc, tree)?)),
        Plain::Num => unmade(alloc, num_value(tree)),
        Plain::Int => unmade(alloc, int_value(tree)),
        Plain::List => Ok(if_any(texts_of(alloc, tree)?)),
        Plain::Items(form) => items_value(alloc, form, tree),
        Plain::Pairs => Ok(if_paired(pairs_of(alloc, tree)?)),
        Plain::Labels => labels_value(alloc, tree),
        Plain::Argv => Ok(Some(Value::Argv(texts_of(alloc, tree)?))),
        Plain::Duration => unmade(alloc, duration_value(tree)),
        Plain::Size => unmade(alloc, size_value(tree)),
        Plain::Decimal => unmade(alloc, decimal_value(tree)),
        Plain::Word(set) => Ok(Some(Value::Text(word_in(alloc, set, tree)?))),
        Plain::Kept => Ok(Some(Value::Kept(mapping_in(alloc, tree)?))),
        Plain::Scale => scale_among(alloc, beside, tree),
        Plain::Deploy => Ok(Some(Value::Kept(deployed(alloc, tree)?))),
        Plain::NetworkMode => mode_among(alloc, beside, tree),
        Plain::External => external_among(alloc, beside, set_flag(alloc, tree)?),
        Plain::Test => test_value(alloc, tree),
        Plain::PortTarget => target_value(alloc, tree),
        Plain::Published => published_value(alloc, tree),
        Plain::Source => source_among(alloc, beside, tree),
        Plain::Target => path_value(alloc, tree),
        Plain::Bind => bind_value(alloc, tree),
        Plain::NoOptions => no_options(alloc, tree),
        Plain::Dropped => Ok(None),
    }
}

/// A value of a kind that takes no memory; where there is none, the tree is of another kind.
fn unmade(alloc: Global, value: Option<Value>) -> Result<Option<Value>, AttributeRefusal>
    ensures { result ≡ found_or_other value }
{
    match value {
        Some(value) => Ok(Some(value)),
        None => Err(refused(alloc, Fault::WrongKind)),
    }
}

fn bool_value(tree: &Tree) -> Option<Value>
    ensures { found_or_other result ≡ kept Value.Bool (written bool_of (out-Tree tree.now)) }
{
    Some(Value::Bool(bool_of(text_of(tree)?)?))
}

fn num_value(tree: &Tree) -> Option<Value>
    ensures { found_or_other result ≡ kept Value.Num (written num_of (out-Tree tree.now)) }
{
    Some(Value::Num(num_of(text_of(tree)?.as_str())?))
}

fn int_value(tree: &Tree) -> Option<Value>
    ensures { found_or_other result ≡ kept Value.Int (written int_of (out-Tree tree.now)) }
{
    Some(Value::Int(int_of(text_of(tree)?)?))
}

fn duration_value(tree: &Tree) -> Option<Value>
    ensures { found_or_other result ≡ kept Value.Duration
        (written duration_of (out-Tree tree.now)) }
{
    Some(Value::Duration(duration_of(text_of(tree)?)?))
}

fn size_value(tree: &Tree) -> Option<Value>
    ensures { found_or_other result ≡ kept Value.Size (written size_of (out-Tree tree.now)) }
{
    Some(Value::Size(size_of(text_of(tree)?)?))
}

fn decimal_value(tree: &Tree) -> Option<Value>
    ensures { found_or_other result ≡ kept Value.Decimal (written decimal_of (out-Tree tree.now)) }
{
    Some(Value::Decimal(decimal_of(text_of(tree)?)?))
}

/// The bool that a scalar writes.
fn set_flag(alloc: Global, tree: &Tree) -> Result<bool, AttributeRefusal>
    ensures { Gives result (written bool_of (out-Tree tree.now)) }
{
    let Some(text) = text_of(tree) else {
        return Err(refused(alloc, Fault::WrongKind));
    };
    match bool_of(text) {
        Some(given) => Ok(given),
        None => Err(refused(alloc, Fault::WrongKind)),
    }
}

/// A flag that is set; one that isn't is as good as none.
fn flag(given: bool) -> Option<Value>
    ensures { result ≡ flag given }
{
    if given { Some(Value::Bool(true)) } else { None }
}

/// A list that isn't empty.
fn if_any(texts: List<Text>) -> Option<Value>
    ensures { result ≡ option_map Value.List (if_any texts) }
{
    if texts.is_empty() {
        drop(texts);
        None
    } else {
        Some(Value::List(texts))
    }
}

/// Pairs, of which there are some.
fn if_paired(pairs: Pairs) -> Option<Value>
    ensures { result ≡ option_map Value.Pairs (if_any pairs) }
{
    if pairs.is_empty() {
        drop(pairs);
        None
    } else {
        Some(Value::Pairs(pairs))
    }
}

fn text_value(alloc: Global, tree: &Tree) -> Result<Option<Value>, AttributeRefusal>
    ensures { Gives result (kept Value.Text (text_of (out-Tree tree.now))) }
{
    match text_of(tree) {
        Some(text) => Ok(Some(Value::Text(text.copy(alloc)?))),
        None => Err(refused(alloc, Fault::WrongKind)),
    }
}

fn items_value(
    alloc: Global,
    form: ItemForm,
    tree: &Tree,
) -> Result<Option<Value>, AttributeRefusal>
    ensures { Gives result (kept_if_any Value.List
        (items_of form (out-Tree tree.now))) }
{
    let texts = texts_of(alloc, tree)?;
    Ok(if_any(all_formed(alloc, form, texts)?))
}

fn labels_value(alloc: Global, tree: &Tree) -> Result<Option<Value>, AttributeRefusal>
    ensures { Gives result (kept_if_any Value.Pairs
        (labels_of (out-Tree tree.now))) }
{
    let pairs = pairs_of(alloc, tree)?;
    Ok(if_paired(labels_of(alloc, pairs)?))
}

fn test_value(alloc: Global, tree: &Tree) -> Result<Option<Value>, AttributeRefusal>
    ensures { Gives result (kept Value.Argv (test_of (out-Tree tree.now))) }
{
    let words = texts_of(alloc, tree)?;
    Ok(Some(Value::Argv(as_test(alloc, words)?)))
}

/// A scalar that is one of the words of a set.
fn word_in(alloc: Global, set: WordSet, tree: &Tree) -> Result<Text, AttributeRefusal>
    ensures { Gives result (accepted (if_passes (is_word_of set)) (out-Tree tree.now)) }
{
    match text_of(tree) {
        Some(text) if is_word_of(set, text.as_str()) => Ok(text.copy(alloc)?),
        Some(_) => Err(refused(alloc, Fault::BadValue)),
        None => Err(refused(alloc, Fault::WrongKind)),
    }
}

/// The mode of a service's network, beside which no network stands.
fn mode_among(
    alloc: Global,
    beside: &[Entry],
    tree: &Tree,
) -> Result<Option<Value>, AttributeRefusal>
    ensures { Gives result (plain_value Plain.NetworkMode
        (map seen_entry beside.now) tree.now (out-Tree tree.now)) }
{
    let mode = word_in(alloc, WordSet::NetworkModes, tree)?;
    if has_networks(beside) {
        drop(mode);
        Err(refused(alloc, Fault::BadValue))
    } else {
        Ok(Some(Value::Text(mode)))
    }
}

fn has_networks(beside: &[Entry]) -> bool
    ensures { result ≡ has_networks (map seen_entry beside.now) }
{
    match value_among(beside, "networks") {
        Some(tree) => is_filled(tree),
        None => false,
    }
}

/// Whether something stands at a tree that isn't empty.
fn is_filled(tree: &Tree) -> bool
    ensures { result ≡ is_filled (Some tree.now) }
{
    match tree {
        Tree::Null => false,
        Tree::Map(entries) => !entries.get().is_empty(),
        Tree::Seq(items) => !items.get().as_slice().is_empty(),
        _ => true,
    }
}

/// Whether a network or a volume is external, of which then nothing else is said but its name.
fn external_among(
    alloc: Global,
    beside: &[Entry],
    external: bool,
) -> Result<Option<Value>, AttributeRefusal>
    ensures { Gives result (external_among (map seen_entry beside.now) external) }
{
    if external && says_more(beside) {
        Err(refused(alloc, Fault::BadValue))
    } else {
        Ok(flag(external))
    }
}

fn says_more(beside: &[Entry]) -> bool
    ensures { result ≡ list_any is_of_own (map seen_entry beside.now) }
{
    beside.iter().any(|entry| is_of_own(entry))
}

fn is_of_own(entry: &Entry) -> bool
    ensures { result ≡ is_of_own (seen_entry entry.now) }
{
    !goes_with_external(entry.key) && !is_null(entry.value)
}

/// Whether an attribute may stand beside `external`.
fn goes_with_external(key: &str) -> bool
    ensures { result ≡ is_in (codes "external" ∷ codes "name" ∷ []) key.now }
{
    matches!(key, "external" | "name")
}

fn target_value(alloc: Global, tree: &Tree) -> Result<Option<Value>, AttributeRefusal>
    ensures { Gives result (kept Value.Port (accepted target_in (out-Tree tree.now))) }
{
    let Some(text) = text_of(tree) else {
        return Err(refused(alloc, Fault::WrongKind));
    };
    match target_of(text.as_str()) {
        Some(port) => Ok(Some(Value::Port(port))),
        None => Err(refused(alloc, Fault::BadValue)),
    }
}

fn published_value(alloc: Global, tree: &Tree) -> Result<Option<Value>, AttributeRefusal>
    ensures { Gives result (kept Value.Text (accepted published_in (out-Tree tree.now))) }
{
    let Some(text) = text_of(tree) else {
        return Err(refused(alloc, Fault::WrongKind));
    };
    match published_as(alloc, text.as_str())? {
        Some(host) => Ok(Some(Value::Text(host))),
        None => Err(refused(alloc, Fault::BadValue)),
    }
}

/// The source of a mount: a path of the host has no `:`.
fn source_among(
    alloc: Global,
    beside: &[Entry],
    tree: &Tree,
) -> Result<Option<Value>, AttributeRefusal>
    ensures { Gives result (source_of (map seen_entry beside.now) (out-Tree tree.now)) }
{
    match text_of(tree) {
        None => Err(refused(alloc, Fault::WrongKind)),
        Some(text) if is_bind(beside) && !has_no_colon(text.as_str()) => {
            Err(refused(alloc, Fault::BadValue))
        }
        Some(text) => Ok(Some(Value::Text(text.copy(alloc)?))),
    }
}

/// Whether the type of a mount, among its entries, is `bind`. No memory.
pub fn is_bind(beside: &[Entry]) -> bool
    ensures { result ≡ is_bind (map seen_entry beside.now) }
{
    match value_among(beside, "type") {
        Some(Tree::Scalar(text)) => text.as_str() == "bind",
        _ => false,
    }
}

/// A path in the container.
fn path_value(alloc: Global, tree: &Tree) -> Result<Option<Value>, AttributeRefusal>
    ensures { Gives result
        (kept Value.Text (accepted (if_passes has_no_colon) (out-Tree tree.now))) }
{
    match text_of(tree) {
        None => Err(refused(alloc, Fault::WrongKind)),
        Some(text) if has_no_colon(text.as_str()) => Ok(Some(Value::Text(text.copy(alloc)?))),
        Some(_) => Err(refused(alloc, Fault::BadValue)),
    }
}

/// What the options of a bind say: its label.
fn bind_value(alloc: Global, tree: &Tree) -> Result<Option<Value>, AttributeRefusal>
    ensures { Gives result (bind_value (out-Tree tree.now)) }
{
    match tree {
        Tree::Map(entries) => {
            let sorted = in_byte_order(entries_of(alloc, entries.get())?)?;
            let labels = labels_among(alloc, sorted.as_slice())?;
            Ok(first_label(alloc, labels.as_slice())?)
        }
        _ => Err(refused(alloc, Fault::WrongKind)),
    }
}

/// The labels among the options of a bind, of which there is at most one.
fn labels_among(alloc: Global, options: &[Entry]) -> Result<List<Text>, AttributeRefusal>
    ensures { Gives result (each_entry
        (λ key tree. bind_option key (out-Tree tree)) (map seen_entry options.now)) }
{
    let mut labels = List::new(alloc);
    for option in options {
        put_label(alloc, option, &mut labels)?;
    }
    Ok(labels)
}

/// Puts the label of an option last, where it has one.
fn put_label(alloc: Global, option: &Entry, labels: &mut List<Text>) -> Result<(), AttributeRefusal>
    ensures { Gives (onto labels.new result)
        (behind labels.old (under (Key option.now.key.now)
        (bind_option option.now.key.now (out-Tree option.now.value.now)))) }
{
    match bind_option(alloc, option) {
        Ok(Some(label)) => Ok(labels.push(label)?),
        Ok(None) => Ok(()),
        Err(refusal) => Err(under_key(alloc, option.key, refusal)),
    }
}

fn first_label(alloc: Global, labels: &[Text]) -> Result<Option<Value>, Memory>
    ensures { IfOk result (λ label. label ≡ first_label labels.now) }
{
    match labels {
        [first, ..] => Ok(Some(Value::Text(first.copy(alloc)?))),
        [] => Ok(None),
    }
}

/// The label of an option of a bind, where it has one.
fn bind_option(alloc: Global, option: &Entry) -> Result<Option<Text>, AttributeRefusal>
    ensures { Gives (if_one result)
        (bind_option option.now.key.now (out-Tree option.now.value.now)) }
{
    match option.key {
        "create_host_path" => made_path(alloc, option.value),
        "selinux" => label_in(alloc, option.value),
        _ => Err(refused(alloc, Fault::UnknownAttribute)),
    }
}

fn made_path(alloc: Global, tree: &Tree) -> Result<Option<Text>, AttributeRefusal>
    ensures { Gives (if_one result) (made_path (out-Tree tree.now)) }
{
    if is_null(tree) {
        Ok(None)
    } else if set_flag(alloc, tree)? {
        Ok(None)
    } else {
        Err(refused(alloc, Fault::BadValue))
    }
}

fn label_in(alloc: Global, tree: &Tree) -> Result<Option<Text>, AttributeRefusal>
    ensures { Gives (if_one result) (label_in (out-Tree tree.now)) }
{
    if is_null(tree) {
        Ok(None)
    } else {
        Ok(Some(word_in(alloc, WordSet::Labels, tree)?))
    }
}

/// The options of a volume, of which there are none.
fn no_options(alloc: Global, tree: &Tree) -> Result<Option<Value>, AttributeRefusal>
    ensures { Gives result (no_options (out-Tree tree.now)) }
{
    match tree {
        Tree::Map(entries) => none_among(alloc, entries.get()),
        _ => Err(refused(alloc, Fault::WrongKind)),
    }
}

fn none_among(alloc: Global, entries: &Map) -> Result<Option<Value>, AttributeRefusal>
    ensures { Gives result (no_options (Tree-F.Map entries.now)) }
{
    let sorted = in_byte_order(entries_of(alloc, entries)?)?;
    match sorted.as_slice() {
        [] => Ok(None),
        [first, ..] => {
            let unknown = refused(alloc, Fault::UnknownAttribute);
            Err(under_key(alloc, first.key, unknown))
        }
    }
}
