ghost use Rattle.std.specs.Prelude.{◌≡◌, true};
ghost use Rattle.std.specs.List.{list_all};
ghost use Rattle.std.specs.Map.{keys_of};
ghost use Rattle.merge_rules.specs.Laws.{are_apart, own_keys};

use tree_base::{Map, Tree};

/// Shows that no mapping of a tree has a key twice. It walks the tree, and takes no memory.
#[cycle(keys)]
pub(crate) fn show_own_keys(tree: &Tree)
    ensures { own_keys tree.now ≡ true }
{
    match tree {
        Tree::Null => {}
        Tree::Scalar(_) => {}
        Tree::Map(entries) => {
            show_keys_apart(entries.get());
            show_all_own_keys(entries.values());
        }
        Tree::Seq(items) => show_all_own_keys(items.as_slice()),
        Tree::Reset => {}
        Tree::Override(inner) => show_own_keys(inner.get()),
    }
}

#[cycle(keys)]
fn show_all_own_keys(trees: &[Tree])
    ensures { list_all own_keys trees.now ≡ true }
{
    for tree in trees {
        show_own_keys(tree);
    }
}

/// Shows that a mapping has no key twice.
fn show_keys_apart(entries: &Map)
    ensures { are_apart (keys_of entries.now) ≡ true }
{
    entries.len();
}
