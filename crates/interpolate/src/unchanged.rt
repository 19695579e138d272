ghost use Rattle.std.specs.Prelude.{◌≡◌, [], IfSome, IsFalse, Ok, length, map};
ghost use Rattle.std.specs.List.{zip};
ghost use Rattle.tree_base.specs.declared.Tree.{Tree};
ghost use Rattle.interpolate.specs.Laws.{HasNoDollar};
ghost use Rattle.interpolate.specs.Substitution.{Variables, substituted};
ghost use Rattle.interpolate.specs.Walking.{Stays, entries_walk, entry_walk, items_walk, scalar_walk, tree_walk, with_bytes};

use tree_base::limits::MOST_TEXT;
use tree_base::{Text, Tree};

/// How many bytes there are with a tree that has no `$`, and so keeps its scalars whatever the variables are. None
/// comes at the first `$`, and where the bytes pass the limit. No memory.
#[cycle(plain)]
pub fn plain_size(tree: &Tree, size: usize) -> Option<usize>
    ensures { IfSome result (λ more. Stays tree.now size more) }
{
    match tree {
        Tree::Null => Some(size),
        Tree::Scalar(text) => text_size(text, size),
        Tree::Map(entries) => values_size(entries.values(), entries.keys(), size),
        Tree::Seq(items) => items_size(items.as_slice(), size),
        Tree::Reset => Some(size),
        Tree::Override(inner) => plain_size(inner.get(), size),
    }
}

/// How many bytes there are with a text that has no `$`.
fn text_size(text: &Text, size: usize) -> Option<usize>
    ensures { IfSome result (λ more. (env : Variables)
        → scalar_walk (substituted env text.now) size ≡ Ok (Tree.Scalar text.now, more)) }
{
    if has_dollar(text.as_str()) {
        None
    } else {
        counted(size, text.len())
    }
}

/// Whether a `$` stands in a text.
fn has_dollar(text: &str) -> bool
    ensures { IsFalse result → HasNoDollar text.now }
{
    text.as_bytes().contains(&b'$')
}

/// So many bytes more, where they are within the limit.
fn counted(size: usize, more: usize) -> Option<usize>
    ensures { IfSome result (λ all. with_bytes size more ≡ Ok all) }
{
    if size > MOST_TEXT as usize {
        None
    } else if more > MOST_TEXT as usize - size {
        None
    } else {
        Some(size + more)
    }
}

/// How many bytes there are with the items of a sequence, in which no `$` stands.
#[cycle(plain)]
fn items_size(items: &[Tree], size: usize) -> Option<usize>
    ensures { IfSome result (λ more. (env : Variables)
        → items_walk ([], size) 0 (map (tree_walk env) items.now) ≡ Ok (items.now, more)) }
{
    let mut size = size;
    for item in items {
        size = plain_size(item, size)?;
    }
    Some(size)
}

/// How many bytes there are with the entries of a mapping, in which no `$` stands.
#[cycle(plain)]
fn values_size(values: &[Tree], keys: &[Text], size: usize) -> Option<usize>
    requires { length keys.now ≡ length values.now }
    ensures { IfSome result (λ more. (env : Variables)
        → entries_walk ([], size) (zip keys.now (map (tree_walk env) values.now)) ≡ Ok (values.now, more)) }
{
    let mut size = size;
    for (at, value) in values.iter().enumerate() {
        size = entry_size(value, &keys[at], size)?;
    }
    Some(size)
}

/// How many bytes there are with an entry, in which no `$` stands.
#[cycle(plain)]
fn entry_size(value: &Tree, key: &Text, size: usize) -> Option<usize>
    ensures { IfSome result (λ more. (env : Variables)
        → entry_walk (key.now, tree_walk env value.now) size ≡ Ok (value.now, more)) }
{
    let size = counted(size, key.len())?;
    plain_size(value, size)
}
