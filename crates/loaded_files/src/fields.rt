ghost use Rattle.std.specs.Prelude.{◌≡◌, ◌++◌, ◌∷◌, [], IfOk, OnOk};
ghost use Rattle.std.specs.Option.{option_copied, option_to_list};
ghost use Rattle.file_paths.specs.Shapes.{entries_at, entries_in};
ghost use Rattle.loaded_files.specs.Fields.{item_texts, names_of, text_at, text_of, texts_at, texts_of};
ghost use Rattle.tree_base.specs.declared.Tree.{out-Tree};

use std::alloc::Global;
use tree_base::{List, Map, Memory, Text, TextMap, Tree, TryCopy, copy_slice};

/// The text of a scalar; None exactly where the tree is none. No memory.
pub fn text_of(tree: &Tree) -> Option<&Text>
    ensures { option_copied result ≡ text_of (out-Tree tree.now) }
{
    match tree {
        Tree::Scalar(text) => Some(text),
        _ => None,
    }
}

/// The text under a key; None exactly where no scalar stands there. No memory.
pub fn text_at<'a>(entries: &'a Map, key: &str) -> Option<&'a Text>
    ensures { option_copied result ≡ text_at entries.now key.now }
{
    match entries.find(key) {
        Some(tree) => text_of(tree),
        None => None,
    }
}

/// The text or the texts under a key; None exactly where neither a scalar nor a sequence stands there.
pub fn texts_at(alloc: Global, entries: &Map, key: &str) -> Result<Option<List<Text>>, Memory>
    ensures { IfOk result (λ texts. texts ≡ texts_at entries.now key.now) }
{
    match entries.find(key) {
        Some(tree) => texts_of(alloc, tree),
        None => Ok(None),
    }
}

/// A text, or the texts of a sequence.
fn texts_of(alloc: Global, tree: &Tree) -> Result<Option<List<Text>>, Memory>
    ensures { IfOk result (λ texts. texts ≡ texts_of (out-Tree tree.now)) }
{
    match tree {
        Tree::Scalar(text) => Ok(Some(only(alloc, text)?)),
        Tree::Seq(items) => Ok(Some(item_texts(alloc, items.as_slice())?)),
        _ => Ok(None),
    }
}

/// A text alone.
pub fn only(alloc: Global, text: &Text) -> Result<List<Text>, Memory>
    ensures { IfOk result (λ texts. texts ≡ text.now ∷ []) }
{
    let mut texts = List::new(alloc);
    texts.push(text.copy(alloc)?)?;
    Ok(texts)
}

/// The texts among the items of a sequence.
fn item_texts(alloc: Global, items: &[Tree]) -> Result<List<Text>, Memory>
    ensures { IfOk result (λ texts. texts ≡ item_texts items.now) }
{
    let mut texts = List::new(alloc);
    for item in items {
        push_text(alloc, &mut texts, item)?;
    }
    Ok(texts)
}

fn push_text(alloc: Global, texts: &mut List<Text>, item: &Tree) -> Result<(), Memory>
    ensures { OnOk result
        (texts.new ≡ texts.old ++ option_to_list (text_of (out-Tree item.now))) }
{
    if let Some(text) = text_of(item) {
        texts.push(text.copy(alloc)?)?;
    }
    Ok(())
}

/// The entries of a mapping, copied; none of another tree.
pub fn entries_in(alloc: Global, tree: &Tree) -> Result<Map, Memory>
    ensures { IfOk result (λ entries. entries ≡ entries_in (out-Tree tree.now)) }
{
    match tree {
        Tree::Map(entries) => entries.get().copy(alloc),
        _ => Ok(TextMap::new(alloc)),
    }
}

/// The entries under a key, copied; none where no mapping stands there.
pub fn entries_at(alloc: Global, entries: &Map, key: &str) -> Result<Map, Memory>
    ensures { IfOk result (λ found. found ≡ entries_at key.now entries.now) }
{
    match entries.find(key) {
        Some(tree) => entries_in(alloc, tree),
        None => Ok(TextMap::new(alloc)),
    }
}

/// The names of a mapping in byte order.
pub fn names_of(alloc: Global, entries: &Map) -> Result<List<Text>, Memory>
    ensures { IfOk result (λ names. names ≡ names_of entries.now) }
{
    let mut names = copy_slice(alloc, entries.keys())?.into_vec();
    names.sort()?;
    Ok(List::from_vec(names))
}
