ghost use Rattle.std.specs.Prelude.{◌≡◌, [], ◌∷◌, ◌++◌, IsTrue, Ok, Some, length, map};
ghost use Rattle.std.specs.List.{zip, IsDistinct};
ghost use Rattle.std.specs.Str.{bytes_eq};
ghost use Rattle.tree_base.specs.declared.Tree.{Tree};
ghost use Rattle.merge_rules.specs.Alone.{JoinsNew, StandsAlone};
ghost use Rattle.merge_rules.specs.Overlay.{entries_over, items_joined, laid, layers};
ghost use Rattle.merge_tables.specs.Spots.{rules_of};

use crate::keys::place_of;
use merge_tables::{Joining, Spot, joining_at, spot_below};
use tree_base::{Map, Text, Tree};

/// Whether a tree, laid over nothing at a spot, is seen to be that tree: it has no mark, and no two entries of a list
/// are one. It ends at the first that it finds. No memory.
#[cycle(alone)]
pub fn stands(tree: &Tree, spot: Spot) -> bool
    ensures { IsTrue result → StandsAlone (rules_of spot) tree.now }
{
    match tree {
        Tree::Null => true,
        Tree::Scalar(_) => true,
        Tree::Map(entries) => map_stands(entries.get(), spot),
        Tree::Seq(items) => items_stand(items.as_slice(), joining_at(spot)),
        Tree::Reset => false,
        Tree::Override(_) => false,
    }
}

/// Whether each value of a mapping stands.
#[cycle(alone)]
fn map_stands(entries: &Map, spot: Spot) -> bool
    ensures { IsTrue result → entries_over (rules_of spot) (layers entries.now) []
        ≡ Ok entries.now }
{
    entries.len() == 0 || values_stand(entries.values(), entries.keys(), spot)
}

/// Whether each value stands under its key.
#[cycle(alone)]
fn values_stand(values: &[Tree], keys: &[Text], spot: Spot) -> bool
    requires same { length keys.now ≡ length values.now }
    requires distinct { IsDistinct bytes_eq keys.now }
    ensures { IsTrue result → entries_over (rules_of spot)
        (zip keys.now (map laid values.now)) [] ≡ Ok (zip keys.now values.now) }
{
    for (at, value) in values.iter().enumerate() {
        if !stands(value, spot_below(spot, keys[at].as_str())) {
            return false;
        }
    }
    true
}

/// How many unique entries are compared with one another at most.
const MOST_COMPARED: usize = 16;

/// Whether each item of a sequence stands, and is put behind those before it. Of many unique entries it isn't asked: they are
/// laid by their marks, in time that grows with their count.
#[cycle(alone)]
fn items_stand(items: &[Tree], joining: Option<Joining>) -> bool
    ensures { IsTrue result → items_joined joining (map laid items.now) [] ≡ Ok items.now }
{
    if are_many(items, joining) {
        return false;
    }
    for (at, item) in items.iter().enumerate() {
        if !stands(item, Spot::Plain) || !is_new(item, &items[..at], joining) {
            return false;
        }
    }
    true
}

/// Whether unique entries are more than are compared with one another.
fn are_many(items: &[Tree], joining: Option<Joining>) -> bool {
    match joining {
        Some(Joining::Unique(_)) => items.len() > MOST_COMPARED,
        Some(Joining::Replaced) => false,
        None => false,
    }
}

/// Whether an item is put behind others, and not laid over one of them.
fn is_new(item: &Tree, items: &[Tree], joining: Option<Joining>) -> bool
    ensures { IsTrue result → JoinsNew joining items.now item.now }
{
    match joining {
        Some(Joining::Unique(kind)) => place_of(kind, item, items).is_none(),
        Some(Joining::Replaced) => true,
        None => true,
    }
}
