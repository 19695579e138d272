ghost use Rattle.std.specs.Prelude.{◌≡◌, [], IfOk, OnOk, Some, map, not, position, unwrap_or};
ghost use Rattle.std.specs.List.{list_all};
ghost use Rattle.std.specs.Option.{ok_or};
ghost use Rattle.tree_base.specs.Entries.{HasDistinctKeys, with_entry};
ghost use Rattle.tree_base.specs.declared.Tree.{Tree, out-Tree};
ghost use Rattle.tree_base.specs.declared.Tree.TheOpen.{Tree-F};
ghost use Rattle.attribute_types.specs.Answers.{Gives};
ghost use Rattle.attribute_types.specs.declared.refusal.AttributeRefusal.TheVariants.{At};
ghost use Rattle.attribute_types.specs.declared.refusal.Fault.{Fault};
ghost use Rattle.attribute_scalars.specs.Lists.{all_passing, as_test, collected, is_nullable, labelled, mapping_in, ordered, pair_of, pairs_of, runs_test, test_words, text_in, texts_of};
ghost use Rattle.attribute_scalars.specs.Scalars.{has_form};
ghost use Rattle.attribute_scalars.specs.Views.{seen_entry};
ghost use Rattle.attribute_scalars.specs.Walks.{in_byte_order, is_in};

use crate::entries::{Entry, entries_of, in_byte_order};
use crate::refusing::{refused, under_place};
use crate::scalars::{has_form, text_of};
use attribute_types::{AttributeRefusal, Fault, ItemForm, Pairs};
use std::alloc::Global;
use tree_base::{Boxed, List, Map, Memory, Text, TextMap, Tree};

/// The texts of a sequence of scalars.
pub fn texts_of(alloc: Global, tree: &Tree) -> Result<List<Text>, AttributeRefusal>
    ensures { Gives result (texts_of (out-Tree tree.now)) }
{
    match tree {
        Tree::Seq(items) => match texts_in(alloc, items.get().as_slice()) {
            Ok(Some(texts)) => Ok(texts),
            Ok(None) => Err(refused(alloc, Fault::WrongKind)),
            Err(Memory) => Err(AttributeRefusal::Memory),
        },
        _ => Err(refused(alloc, Fault::WrongKind)),
    }
}

/// The texts of scalars; None where a tree is none.
fn texts_in(alloc: Global, items: &[Tree]) -> Result<Option<List<Text>>, Memory>
    ensures { IfOk result (λ texts.
        texts ≡ collected (λ tree. text_in (out-Tree tree)) items.now) }
{
    let mut texts = List::new(alloc);
    for item in items {
        let Some(text) = text_of(item) else {
            return Ok(None);
        };
        texts.push(text.copy(alloc)?)?;
    }
    Ok(Some(texts))
}

/// Texts that all have a form; the first that hasn't is refused at its place.
pub fn all_formed(
    alloc: Global,
    form: ItemForm,
    texts: List<Text>,
) -> Result<List<Text>, AttributeRefusal>
    ensures { Gives result (all_passing (has_form form) texts) }
{
    match misfit(form, texts.as_slice()) {
        None => Ok(texts),
        Some(at) => {
            drop(texts);
            Err(under_place(at, refused(alloc, Fault::BadValue)))
        }
    }
}

fn misfit(form: ItemForm, texts: &[Text]) -> Option<usize>
    ensures { result ≡ position (λ text. not (has_form form text)) texts.now }
{
    texts.iter().position(|text| !has_form(form, text.as_str()))
}

/// The words of a test, of which the first says how it is run.
pub fn as_test(alloc: Global, words: List<Text>) -> Result<List<Text>, AttributeRefusal>
    ensures { Gives result (as_test words) }
{
    if runs_test(words.as_slice()) {
        Ok(words)
    } else {
        drop(words);
        Err(refused(alloc, Fault::BadValue))
    }
}

fn runs_test(words: &[Text]) -> bool
    ensures { result ≡ runs_test words.now }
{
    match words {
        [first, ..] => is_test_word(first.as_str()),
        [] => false,
    }
}

fn is_test_word(word: &str) -> bool
    ensures { result ≡ is_in test_words word.now }
{
    matches!(word, "NONE" | "CMD" | "CMD-SHELL")
}

/// The pairs of a mapping of scalars and nulls, in byte order of their keys.
pub fn pairs_of(alloc: Global, tree: &Tree) -> Result<Pairs, AttributeRefusal>
    ensures { Gives result (pairs_of (out-Tree tree.now)) }
{
    match tree {
        Tree::Map(entries) => match pairs_in(alloc, entries.get()) {
            Ok(Some(pairs)) => Ok(pairs),
            Ok(None) => Err(refused(alloc, Fault::WrongKind)),
            Err(Memory) => Err(AttributeRefusal::Memory),
        },
        _ => Err(refused(alloc, Fault::WrongKind)),
    }
}

/// The pairs of entries; None where something is neither a scalar nor null.
fn pairs_in(alloc: Global, entries: &Map) -> Result<Option<Pairs>, Memory>
    ensures { IfOk result (λ pairs.
        ok_or pairs (At Fault.WrongKind []) ≡ pairs_of (Tree-F.Map entries.now)) }
{
    let sorted = in_byte_order(entries_of(alloc, entries)?)?;
    if are_nullable(sorted.as_slice()) {
        Ok(Some(pairs_from(alloc, sorted.as_slice())?))
    } else {
        Ok(None)
    }
}

/// Whether scalars and nulls stand under all keys.
fn are_nullable(entries: &[Entry]) -> bool
    ensures { result ≡ list_all (λ entry. is_nullable (out-Tree entry.1))
        (map seen_entry entries.now) }
{
    entries.iter().all(|entry| is_nullable(entry.value))
}

fn is_nullable(tree: &Tree) -> bool
    ensures { result ≡ is_nullable (out-Tree tree.now) }
{
    matches!(tree, Tree::Scalar(_) | Tree::Null)
}

/// The texts of entries under their keys, which differ; nothing where no scalar stands.
fn pairs_from(alloc: Global, entries: &[Entry]) -> Result<Pairs, Memory>
    requires { HasDistinctKeys (map seen_entry entries.now) }
    ensures { IfOk result (λ pairs. pairs ≡ map pair_of (map seen_entry entries.now)) }
{
    let mut pairs = TextMap::new(alloc);
    for entry in entries {
        put_pair(alloc, &mut pairs, entry)?;
    }
    Ok(pairs)
}

fn put_pair(alloc: Global, pairs: &mut Pairs, entry: &Entry) -> Result<(), Memory>
    ensures { OnOk result (pairs.new ≡ with_entry pairs.old
        entry.now.key.now (text_in (out-Tree entry.now.value.now))) }
{
    let value = match text_of(entry.value) {
        Some(text) => Some(text.copy(alloc)?),
        None => None,
    };
    let key = Text::from_str(alloc, entry.key)?;
    drop(pairs.put(key, value)?);
    Ok(())
}

/// The same pairs, where nothing is the empty text.
pub fn labels_of(alloc: Global, pairs: Pairs) -> Result<Pairs, Memory>
    ensures { IfOk result (λ labels. labels ≡ map labelled pairs) }
{
    let labels = labels_from(alloc, pairs.values())?;
    pairs.with_values(alloc, labels)
}

fn labels_from(alloc: Global, values: &[Option<Text>]) -> Result<List<Option<Text>>, Memory>
    ensures { IfOk result (λ labels.
        labels ≡ map (λ value. Some (unwrap_or value [])) values.now) }
{
    let mut labels = List::new(alloc);
    for value in values {
        labels.push(Some(label_of(alloc, value)?))?;
    }
    Ok(labels)
}

fn label_of(alloc: Global, value: &Option<Text>) -> Result<Text, Memory>
    ensures { IfOk result (λ label. label ≡ unwrap_or value.now []) }
{
    match value {
        Some(text) => text.copy(alloc),
        None => Ok(Text::new(alloc)),
    }
}

/// A mapping as it is read, with the keys of each mapping in it in byte order.
pub fn mapping_in(alloc: Global, tree: &Tree) -> Result<Tree, AttributeRefusal>
    ensures { Gives result (mapping_in tree.now (out-Tree tree.now)) }
{
    match tree {
        Tree::Map(_) => Ok(ordered(tree, alloc)?),
        _ => Err(refused(alloc, Fault::WrongKind)),
    }
}

/// A tree with the keys of each of its mappings in byte order.
#[cycle(ordering)]
fn ordered(tree: &Tree, alloc: Global) -> Result<Tree, Memory>
    ensures { IfOk result (λ t. t ≡ ordered tree.now) }
{
    match tree {
        Tree::Map(entries) => ordered_map(entries.get(), alloc),
        Tree::Seq(items) => {
            let items = ordered_items(items.as_slice(), alloc)?;
            Tree::sequence(alloc, items)
        }
        Tree::Override(inner) => {
            let inner = ordered(inner.get(), alloc)?;
            Ok(Tree::Override(Boxed::new(alloc, inner)?))
        }
        _ => tree.copy(alloc),
    }
}

#[cycle(ordering)]
fn ordered_items(items: &[Tree], alloc: Global) -> Result<List<Tree>, Memory>
    ensures { IfOk result (λ trees. trees ≡ map ordered items.now) }
{
    let mut trees = List::new(alloc);
    for item in items {
        trees.push(ordered(item, alloc)?)?;
    }
    Ok(trees)
}

/// A mapping with its keys in byte order, and those of each mapping in it.
#[cycle(ordering)]
fn ordered_map(entries: &Map, alloc: Global) -> Result<Tree, Memory>
    ensures { IfOk result (λ t. t ≡ ordered (Tree.Map entries.now)) }
{
    let values = ordered_items(entries.values(), alloc)?;
    let ordered = entries.with_values(alloc, values)?;
    Tree::mapping(alloc, sorted_map(alloc, &ordered)?)
}

/// A mapping with its keys in byte order.
fn sorted_map(alloc: Global, entries: &Map) -> Result<Map, Memory>
    ensures { IfOk result (λ sorted. sorted ≡ in_byte_order entries.now) }
{
    let order = in_byte_order(entries_of(alloc, entries)?)?;
    mapping_of(alloc, order.as_slice())
}

/// The mapping of entries, whose keys differ.
fn mapping_of(alloc: Global, entries: &[Entry]) -> Result<Map, Memory>
    requires { HasDistinctKeys (map seen_entry entries.now) }
    ensures { IfOk result (λ mapping. mapping ≡ map seen_entry entries.now) }
{
    let mut mapping = TextMap::new(alloc);
    for entry in entries {
        put_copy(alloc, &mut mapping, entry)?;
    }
    Ok(mapping)
}

fn put_copy(alloc: Global, entries: &mut Map, entry: &Entry) -> Result<(), Memory>
    ensures { OnOk result (entries.new
        ≡ with_entry entries.old entry.now.key.now entry.now.value.now) }
{
    let key = Text::from_str(alloc, entry.key)?;
    let tree = entry.value.copy(alloc)?;
    drop(entries.put(key, tree)?);
    Ok(())
}
