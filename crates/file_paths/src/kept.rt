ghost use Rattle.std.specs.Prelude.{◌≡◌, [], List, ℕ, IsTrue, Ok, length, map};
ghost use Rattle.std.specs.List.{zip};
ghost use Rattle.file_paths.specs.Resolving.{Entries, Home, entries_homed, items_homed, resolved_by, text_homed, values_homed};
ghost use Rattle.file_paths.specs.Spots.{rules_of};
ghost use Rattle.tree_base.specs.declared.Tree.{Tree};

use crate::spot::{PathKind, PathSpot, kind_at, spot_below, spot_of_items};
use tree_base::{Text, Tree};

/// Whether a tree at a spot is seen to hold no path, and so stays as it is. It ends at the first that may be one. No
/// memory.
#[cycle(keeps)]
pub(crate) fn keeps(tree: &Tree, spot: PathSpot) -> bool
    ensures { IsTrue result → (home : Home) → resolved_by home tree.now (rules_of spot)
        ≡ Ok tree.now }
{
    match spot {
        PathSpot::Plain => true,
        _ => keeps_parts(tree, spot),
    }
}

/// Whether a tree holds no path, by its parts.
#[cycle(keeps)]
fn keeps_parts(tree: &Tree, spot: PathSpot) -> bool
    ensures { IsTrue result → (home : Home) → resolved_by home tree.now (rules_of spot)
        ≡ Ok tree.now }
{
    match tree {
        Tree::Null => true,
        Tree::Scalar(_) => keeps_texts(kind_at(spot)),
        Tree::Map(entries) => keeps_entries(kind_at(spot))
            && keeps_values(entries.values(), entries.keys(), spot),
        Tree::Seq(items) => keeps_items(items.as_slice(), spot_of_items(spot)),
        Tree::Reset => true,
        Tree::Override(inner) => keeps(inner.get(), spot),
    }
}

/// Whether a text is no path.
fn keeps_texts(kind: Option<PathKind>) -> bool
    ensures { IsTrue result → (home : Home) (text : List ℕ) → text_homed home kind text
        ≡ Ok (Tree.Scalar text) }
{
    match kind {
        None => true,
        Some(PathKind::Bind) => true,
        Some(PathKind::Text) => false,
        Some(PathKind::Context) => false,
    }
}

/// Whether a mapping has no path of its own.
fn keeps_entries(kind: Option<PathKind>) -> bool
    ensures { IsTrue result → (home : Home) (entries : Entries) → entries_homed home kind entries
        ≡ Ok entries }
{
    match kind {
        None => true,
        Some(PathKind::Text) => true,
        Some(PathKind::Context) => true,
        Some(PathKind::Bind) => false,
    }
}

/// Whether each value holds no path.
#[cycle(keeps)]
fn keeps_values(values: &[Tree], keys: &[Text], spot: PathSpot) -> bool
    requires { length keys.now ≡ length values.now }
    ensures { IsTrue result → (home : Home) → values_homed (rules_of spot) []
        (zip keys.now (map (resolved_by home) values.now)) ≡ Ok values.now }
{
    for (at, value) in values.iter().enumerate() {
        if !keeps(value, spot_below(spot, keys[at].as_str())) {
            return false;
        }
    }
    true
}

/// Whether each item at a spot holds no path.
#[cycle(keeps)]
fn keeps_items(items: &[Tree], spot: PathSpot) -> bool
    ensures { IsTrue result → (home : Home) → items_homed (rules_of spot) []
        (map (resolved_by home) items.now) ≡ Ok items.now }
{
    for item in items {
        if !keeps(item, spot) {
            return false;
        }
    }
    true
}
