ghost use Rattle.std.specs.Prelude.{◌≡◌, [], ◌∷◌, ◌++◌, ◌<◌, ◌↔◌, Some, IfOk, IfSome, IsTrue, OnOk, length, slice_get};
ghost use Rattle.merge_rules.specs.Marks.{AreNoted, AreNotedBy, IsNoted, ItemIsNoted, NoneBefore, StaysNoted, mark_of};
ghost use Rattle.merge_rules.specs.Uniqueness.{place_of};

use crate::keys::{are_one, place_of};
use crate::marks::mark_of;
use merge_tables::{EntryKind, Joining};
use std::alloc::Global;
use tree_base::{List, Memory, Text, TextMap, Tree};

/// Where entries stand, by their marks: for each mark the first place of an entry that has it, or one before. Nothing is
/// noted of items that aren't unique.
pub(crate) fn firsts_of(
    alloc: Global,
    joining: Option<Joining>,
    items: &[Tree],
) -> Result<TextMap<usize>, Memory>
    ensures { IfOk result (λ firsts. AreNotedBy joining firsts items.now) }
{
    match joining {
        Some(Joining::Unique(kind)) => firsts_among(alloc, kind, items),
        Some(Joining::Replaced) => Ok(TextMap::new(alloc)),
        None => Ok(TextMap::new(alloc)),
    }
}

fn firsts_among(alloc: Global, kind: EntryKind, items: &[Tree]) -> Result<TextMap<usize>, Memory>
    ensures { IfOk result (λ firsts. AreNoted kind firsts items.now) }
{
    let mut firsts = TextMap::new(alloc);
    for (at, item) in items.iter().enumerate() {
        note(alloc, &mut firsts, kind, item, at)?;
    }
    Ok(firsts)
}

/// Notes that an item stands at a place.
pub(crate) fn note(
    alloc: Global,
    firsts: &mut TextMap<usize>,
    kind: EntryKind,
    item: &Tree,
    at: usize,
) -> Result<(), Memory>
    ensures stays { StaysNoted firsts.old firsts.new }
    ensures noted { OnOk result (ItemIsNoted kind firsts.new item.now at) }
{
    match mark_of(alloc, kind, item)? {
        Some(mark) => note_mark(firsts, mark, at),
        None => Ok(()),
    }
}

fn note_mark(firsts: &mut TextMap<usize>, mark: Text, at: usize) -> Result<(), Memory>
    ensures stays { StaysNoted firsts.old firsts.new }
    ensures noted { OnOk result (IsNoted firsts.new mark at) }
{
    if is_noted(firsts, &mark, at) {
        drop(mark);
        return Ok(());
    }
    firsts.put(mark, at)?;
    Ok(())
}

fn is_noted(firsts: &TextMap<usize>, mark: &Text, at: usize) -> bool
    ensures { IsTrue result ↔ IsNoted firsts.now mark.now at }
{
    match firsts.get(mark) {
        Some(first) => *first <= at,
        None => false,
    }
}

/// The place of the first of some items that is one with an item.
pub(crate) fn place_noted(
    alloc: Global,
    firsts: &TextMap<usize>,
    kind: EntryKind,
    item: &Tree,
    items: &[Tree],
) -> Result<Option<usize>, Memory>
    requires { AreNoted kind firsts.now items.now }
    ensures place { IfOk result (λ at. at ≡ place_of kind item.now items.now) }
    ensures within { IfOk result (λ at. IfSome at (λ at. at < length items.now)) }
{
    match mark_of(alloc, kind, item)? {
        Some(mark) => Ok(place_by_mark(firsts, &mark, kind, item, items)),
        None => Ok(None),
    }
}

/// The same for an item of this mark. No memory.
fn place_by_mark(
    firsts: &TextMap<usize>,
    mark: &Text,
    kind: EntryKind,
    item: &Tree,
    items: &[Tree],
) -> Option<usize>
    requires noted { AreNoted kind firsts.now items.now }
    requires marked { mark_of kind item.now ≡ Some mark.now }
    ensures place { result ≡ place_of kind item.now items.now }
    ensures within { IfSome result (λ at. at < length items.now) }
{
    match firsts.get(mark) {
        Some(first) => place_from(*first, kind, item, items),
        None => None,
    }
}

/// The same where no item before a place is one with it. That is the place, but where two keys of one mark differ. No memory.
fn place_from(first: usize, kind: EntryKind, item: &Tree, items: &[Tree]) -> Option<usize>
    requires { NoneBefore kind item.now items.now first }
    ensures place { result ≡ place_of kind item.now items.now }
    ensures within { IfSome result (λ at. at < length items.now) }
{
    match items.get(first) {
        Some(other) => place_at(first, other, kind, item, items),
        None => place_of(kind, item, items),
    }
}

/// The same where that place has an item.
fn place_at(
    first: usize,
    other: &Tree,
    kind: EntryKind,
    item: &Tree,
    items: &[Tree],
) -> Option<usize>
    requires none { NoneBefore kind item.now items.now first }
    requires there { slice_get items.now first ≡ Some other.now }
    ensures place { result ≡ place_of kind item.now items.now }
    ensures within { IfSome result (λ at. at < length items.now) }
{
    if are_one(kind, item, other) {
        return Some(first);
    }
    place_of(kind, item, items)
}

/// The items with one more behind them, which is noted.
pub(crate) fn note_last(
    alloc: Global,
    firsts: &mut TextMap<usize>,
    kind: EntryKind,
    items: List<Tree>,
    item: Tree,
) -> Result<List<Tree>, Memory>
    requires { AreNoted kind firsts.old items }
    ensures all { IfOk result (λ all. all ≡ items ++ item ∷ []) }
    ensures noted { IfOk result (λ all. AreNoted kind firsts.new all) }
{
    note(alloc, firsts, kind, &item, items.len())?;
    let mut all = items;
    all.push(item)?;
    Ok(all)
}
