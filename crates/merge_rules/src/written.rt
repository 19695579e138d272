ghost use Rattle.std.specs.Prelude.{◌≡◌, ◌++◌, IfOk, OnOk, flat_map, length, map};
ghost use Rattle.std.specs.List.{zip};
ghost use Rattle.tree_base.specs.declared.Tree.{Tree};
ghost use Rattle.merge_rules.specs.Marks.{counted, entry_written, written};

use std::alloc::Global;
use tree_base::{Map, Memory, Text, Tree};

/// A text behind its length.
pub(crate) fn counted(alloc: Global, text: &Text) -> Result<Text, Memory>
    ensures { IfOk result (λ part. part ≡ counted text.now) }
{
    let length = text.len();
    let part = format!(in alloc; "{length}:{text}")?;
    Ok(Text::from_string(part))
}

/// Puts a text last, behind its length.
pub(crate) fn put_text(alloc: Global, mark: &mut Text, text: &Text) -> Result<(), Memory>
    ensures { OnOk result (mark.new ≡ mark.old ++ counted text.now) }
{
    let part = counted(alloc, text)?;
    mark.push_str(part.as_str())
}

/// Puts a tree last, as it stands in a mark. So trees of any size are told apart by their marks, and no two of them are compared.
#[cycle(written)]
pub(crate) fn put_tree(alloc: Global, mark: &mut Text, tree: &Tree) -> Result<(), Memory>
    ensures { OnOk result (mark.new ≡ mark.old ++ written tree.now) }
{
    match tree {
        Tree::Null => mark.push_str("~"),
        Tree::Scalar(text) => put_text(alloc, mark, text),
        Tree::Map(entries) => put_map(alloc, mark, entries.get()),
        Tree::Seq(items) => {
            mark.push_str("[")?;
            put_items(alloc, mark, items.as_slice())?;
            mark.push_str("]")
        }
        Tree::Reset => mark.push_str("-"),
        Tree::Override(inner) => {
            mark.push_str("!")?;
            put_tree(alloc, mark, inner.get())
        }
    }
}

#[cycle(written)]
fn put_map(alloc: Global, mark: &mut Text, entries: &Map) -> Result<(), Memory>
    ensures { OnOk result (mark.new ≡ mark.old ++ written (Tree.Map entries.now)) }
{
    mark.push_str("{")?;
    put_entries(alloc, mark, entries.values(), entries.keys())?;
    mark.push_str("}")
}

#[cycle(written)]
fn put_entries(alloc: Global, mark: &mut Text, values: &[Tree], keys: &[Text]) -> Result<(), Memory>
    requires { length keys.now ≡ length values.now }
    ensures { OnOk result (mark.new ≡
        mark.old ++ flat_map entry_written (zip keys.now (map written values.now))) }
{
    for (at, value) in values.iter().enumerate() {
        put_text(alloc, mark, &keys[at])?;
        put_tree(alloc, mark, value)?;
    }
    Ok(())
}

#[cycle(written)]
fn put_items(alloc: Global, mark: &mut Text, items: &[Tree]) -> Result<(), Memory>
    ensures { OnOk result (mark.new ≡
        mark.old ++ flat_map (λ item. item) (map written items.now)) }
{
    for item in items.iter() {
        put_tree(alloc, mark, item)?;
    }
    Ok(())
}
