ghost use Rattle.std.specs.Prelude.{Option, ◌≡◌, ◌<◌, [], ◌∷◌, ◌++◌, length, map, None, Some, IfOk, OnOk, codes};
ghost use Rattle.std.specs.List.{zip};
ghost use Rattle.tree_base.specs.Entries.{value_at, with_entry};
ghost use Rattle.tree_base.specs.declared.Tree.{Tree, out-Tree};
ghost use Rattle.tree_base.specs.declared.Step.TheVariants.{Key, Index};
ghost use Rattle.merge_tables.specs.Answers.{Gives, UpGives, outer, place, under};
ghost use Rattle.merge_rules.specs.Overlay.{entries_below, entries_laid, entries_over, entry_over, entry_placed, entry_taken, item_joined, items_below, items_joined, items_kept, items_laid, kept_below, laid, layers, one_of, over_files, overlaid, scalar_over, service_over, with_value};
ghost use Rattle.merge_rules.specs.Marks.{AreNoted, AreNotedBy};
ghost use Rattle.merge_tables.specs.Spots.{rules_of};
ghost use Rattle.merge_tables.specs.Parts.{or_null};

use crate::alone::stands;
use crate::places::{firsts_of, note, note_last, place_noted};
use merge_tables::{
    EntryKind, Joining, MergeRefusal, Spot, Standing, from_root, joining_at, place, spot_below,
    with_step, within,
};
use std::alloc::Global;
use tree_base::{List, Map, Memory, Step, Text, TextMap, Tree};

/// A tree over another one, which may have marks too: these are taken off first. The result has no mark.
///
/// The refusal is the first in the order of the upper tree: KindMismatch where trees of different kinds meet, with the
/// path in the merged tree; TooManyNodes, then TooMuchText, where the result passes a limit.
pub fn overlay(alloc: Global, base: &Tree, over: &Tree) -> Result<Tree, MergeRefusal>
    ensures { Gives result (overlaid base.now over.now) }
{
    match lay(base, Tree::Null, Standing::Value, Spot::Plain, alloc) {
        Ok(bare) => overlay_onto(alloc, or_null(bare), over),
        Err(refusal) => Err(from_root(refusal)),
    }
}

/// A file's tree over what the files before it gave, which has no mark. What the file doesn't speak of is moved, and
/// not copied. The refusals are those of `overlay`.
pub fn overlay_onto(alloc: Global, base: Tree, over: &Tree) -> Result<Tree, MergeRefusal>
    ensures { Gives result (over_files base over.now) }
{
    match lay(over, base, Standing::Value, Spot::Root, alloc) {
        Ok(tree) => within(or_null(tree)),
        Err(refusal) => Err(from_root(refusal)),
    }
}

/// A service of this name over one that it extends, which is moved, and not copied; neither has a mark.
///
/// The refusal is `KindMismatch` with the first path, in the order of the upper one, at which trees of different kinds
/// meet; it begins with `services` and the name. Limits aren't asked here.
pub fn service_onto(alloc: Global, name: &Text, base: Map, over: &Map) -> Result<Map, MergeRefusal>
    ensures { Gives result (service_over name.now base over.now) }
{
    match lay_entries(over.values(), over.keys(), base, Spot::Service, alloc) {
        Ok(all) => Ok(all),
        Err(refusal) => Err(from_root(in_service(alloc, name, refusal)?)),
    }
}

/// A refusal whose path is told from the inside out, of what stands in the service of this name.
fn in_service(alloc: Global, name: &Text, refusal: MergeRefusal) -> Result<MergeRefusal, Memory>
    ensures { IfOk result
        (λ r. r ≡ outer (Key (codes "services")) (outer (Key name.now) refusal)) }
{
    let named = with_step(refusal, Step::Key(name.copy(alloc)?))?;
    with_step(named, Step::Key(Text::from_str(alloc, "services")?))
}

/// A tree that may be taken away, or null.
fn or_null(tree: Option<Tree>) -> Tree
    ensures { result ≡ or_null tree }
{
    tree.unwrap_or(Tree::Null)
}

/// What a tree makes of the one that it is laid over.
#[cycle(lay)]
fn lay(
    over: &Tree,
    base: Tree,
    standing: Standing,
    spot: Spot,
    alloc: Global,
) -> Result<Option<Tree>, MergeRefusal>
    ensures { UpGives result (laid over.now standing (rules_of spot) base) }
{
    match base {
        Tree::Null => lay_alone(over, standing, spot, alloc),
        base => lay_parts(over, base, standing, spot, alloc),
    }
}

/// What a tree makes of nothing: it is shared where it stands as it is. A tree is asked once, and once for each tree
/// above it that doesn't stand.
#[cycle(lay)]
fn lay_alone(
    over: &Tree,
    standing: Standing,
    spot: Spot,
    alloc: Global,
) -> Result<Option<Tree>, MergeRefusal>
    ensures { UpGives result (laid over.now standing (rules_of spot) Tree.Null) }
{
    if stands(over, spot) {
        Ok(Some(over.copy(alloc)?))
    } else {
        lay_parts(over, Tree::Null, standing, spot, alloc)
    }
}

/// What a tree makes of the one that it is laid over, by what its parts make of theirs.
#[cycle(lay)]
fn lay_parts(
    over: &Tree,
    base: Tree,
    standing: Standing,
    spot: Spot,
    alloc: Global,
) -> Result<Option<Tree>, MergeRefusal>
    ensures { UpGives result (laid over.now standing (rules_of spot) base) }
{
    match over {
        Tree::Null => Ok(Some(base)),
        Tree::Scalar(text) => {
            let tree = lay_scalar(text, &base, alloc);
            drop(base);
            tree
        }
        Tree::Map(entries) => lay_map(entries.get(), base, spot, alloc),
        Tree::Seq(items) => lay_seq(items.as_slice(), base, joining_at(spot), alloc),
        Tree::Reset => {
            drop(base);
            Ok(None)
        }
        Tree::Override(inner) => {
            lay(
                inner.get(),
                kept_below(standing, base),
                standing,
                spot,
                alloc,
            )
        }
    }
}

/// What a mark `!override` leaves of the tree below.
fn kept_below(standing: Standing, base: Tree) -> Tree
    ensures { result ≡ kept_below standing base }
{
    match standing {
        Standing::Value => {
            drop(base);
            Tree::Null
        }
        Standing::Item => base,
    }
}

fn lay_scalar(text: &Text, base: &Tree, alloc: Global) -> Result<Option<Tree>, MergeRefusal>
    ensures { UpGives result (scalar_over text.now (out-Tree base.now)) }
{
    match base {
        Tree::Null => Ok(Some(Tree::Scalar(text.copy(alloc)?))),
        Tree::Scalar(_) => Ok(Some(Tree::Scalar(text.copy(alloc)?))),
        _ => Err(mismatch(alloc)),
    }
}

/// Trees of different kinds, at the path that leads here.
fn mismatch(alloc: Global) -> MergeRefusal
    ensures { result ≡ MergeRefusal.KindMismatch [] }
{
    MergeRefusal::KindMismatch {
        path: List::new(alloc),
    }
}

/// The entries that a mapping is laid over.
fn map_below(base: Tree, alloc: Global) -> Result<Map, MergeRefusal>
    ensures { UpGives result (entries_below (out-Tree base)) }
{
    match base {
        Tree::Null => Ok(TextMap::new(alloc)),
        Tree::Map(entries) => Ok(entries.take(alloc)?),
        other => {
            drop(other);
            Err(mismatch(alloc))
        }
    }
}

/// The items that a sequence is laid over.
fn list_below(base: Tree, alloc: Global) -> Result<List<Tree>, MergeRefusal>
    ensures { UpGives result (items_below (out-Tree base)) }
{
    match base {
        Tree::Null => Ok(List::new(alloc)),
        Tree::Seq(items) => Ok(items.take(alloc)?),
        other => {
            drop(other);
            Err(mismatch(alloc))
        }
    }
}

/// A mapping laid over a tree.
#[cycle(lay)]
fn lay_map(
    entries: &Map,
    base: Tree,
    spot: Spot,
    alloc: Global,
) -> Result<Option<Tree>, MergeRefusal>
    ensures { UpGives result (entries_laid (rules_of spot) (layers entries.now) base) }
{
    let below = map_below(base, alloc)?;
    let all = lay_entries(entries.values(), entries.keys(), below, spot, alloc)?;
    Ok(Some(Tree::mapping(alloc, all)?))
}

/// Entries laid over a mapping in their order.
#[cycle(lay)]
fn lay_entries(
    values: &[Tree],
    keys: &[Text],
    base: Map,
    spot: Spot,
    alloc: Global,
) -> Result<Map, MergeRefusal>
    requires { length keys.now ≡ length values.now }
    ensures { UpGives result
        (entries_over (rules_of spot) (zip keys.now (map laid values.now)) base) }
{
    let mut all = base;
    for (at, value) in values.iter().enumerate() {
        all = lay_entry(value, &keys[at], all, spot, alloc)?;
    }
    Ok(all)
}

/// One entry laid over a mapping.
#[cycle(lay)]
fn lay_entry(
    value: &Tree,
    key: &Text,
    base: Map,
    spot: Spot,
    alloc: Global,
) -> Result<Map, MergeRefusal>
    ensures { UpGives result (entry_over (rules_of spot) base (key.now, laid value.now)) }
{
    let mut all = base;
    let old = take_value(&mut all, key, alloc)?;
    let new = lay_below(value, key, old, spot_below(spot, key.as_str()), alloc)?;
    put_value(&mut all, key, new, alloc)?;
    Ok(all)
}

/// The value of a key, in whose place null is left where it is there.
fn take_value(entries: &mut Map, key: &Text, alloc: Global) -> Result<Tree, Memory>
    ensures value { IfOk result (λ old. old ≡ or_null (value_at entries.old key.now)) }
    ensures left { OnOk result ((new : Option Tree)
        → with_value entries.new key.now new ≡ with_value entries.old key.now new) }
{
    if entries.get(key).is_none() {
        Ok(Tree::Null)
    } else {
        Ok(or_null(entries.put(key.copy(alloc)?, Tree::Null)?))
    }
}

/// Gives a key its new value, or takes the key out.
fn put_value(
    entries: &mut Map,
    key: &Text,
    value: Option<Tree>,
    alloc: Global,
) -> Result<(), Memory>
    ensures { OnOk result (entries.new ≡ with_value entries.old key.now value) }
{
    match value {
        Some(value) => drop(entries.put(key.copy(alloc)?, value)?),
        None => drop(entries.remove(key)),
    }
    Ok(())
}

/// The value of a key laid over the one that it has below.
#[cycle(lay)]
fn lay_below(
    value: &Tree,
    key: &Text,
    old: Tree,
    spot: Spot,
    alloc: Global,
) -> Result<Option<Tree>, MergeRefusal>
    ensures { UpGives result (under (Key key.now)
        (laid value.now Standing.Value (rules_of spot) old)) }
{
    match lay(value, old, Standing::Value, spot, alloc) {
        Ok(new) => Ok(new),
        Err(refusal) => Err(with_step(refusal, Step::Key(key.copy(alloc)?))?),
    }
}

/// A sequence laid over a tree.
#[cycle(lay)]
fn lay_seq(
    items: &[Tree],
    base: Tree,
    joining: Option<Joining>,
    alloc: Global,
) -> Result<Option<Tree>, MergeRefusal>
    ensures { UpGives result (items_laid joining (map laid items.now) base) }
{
    let below = list_below(base, alloc)?;
    let all = lay_items(items, kept(below, joining, alloc), joining, alloc)?;
    Ok(Some(Tree::sequence(alloc, all)?))
}

/// What is left of the items below.
fn kept(items: List<Tree>, joining: Option<Joining>, alloc: Global) -> List<Tree>
    ensures { result ≡ items_kept joining items }
{
    match joining {
        Some(Joining::Replaced) => {
            drop(items);
            List::new(alloc)
        }
        Some(Joining::Unique(_)) => items,
        None => items,
    }
}

/// Items taken in one by one.
#[cycle(lay)]
fn lay_items(
    items: &[Tree],
    base: List<Tree>,
    joining: Option<Joining>,
    alloc: Global,
) -> Result<List<Tree>, MergeRefusal>
    ensures { UpGives result (items_joined joining (map laid items.now) base) }
{
    let mut firsts = firsts_of(alloc, joining, base.as_slice())?;
    let mut all = base;
    for item in items {
        all = lay_item(item, all, &mut firsts, joining, alloc)?;
    }
    Ok(all)
}

/// One item more.
#[cycle(lay)]
fn lay_item(
    item: &Tree,
    items: List<Tree>,
    firsts: &mut TextMap<usize>,
    joining: Option<Joining>,
    alloc: Global,
) -> Result<List<Tree>, MergeRefusal>
    requires { AreNotedBy joining firsts.old items }
    ensures joins { UpGives result (item_joined joining items (laid item.now)) }
    ensures noted { IfOk result (λ all. AreNotedBy joining firsts.new all) }
{
    let entry = lay(item, Tree::Null, Standing::Item, Spot::Plain, alloc)?;
    match joining {
        Some(Joining::Unique(kind)) => take_in(item, entry, items, firsts, kind, alloc),
        Some(Joining::Replaced) => Ok(with_one(items, entry)?),
        None => Ok(with_one(items, entry)?),
    }
}

/// The items with one more behind them, where it is there.
fn with_one(items: List<Tree>, item: Option<Tree>) -> Result<List<Tree>, Memory>
    ensures { IfOk result (λ all. all ≡ items ++ one_of item) }
{
    match item {
        Some(item) => with_last(items, item),
        None => Ok(items),
    }
}

/// The items with one more behind them.
fn with_last(items: List<Tree>, item: Tree) -> Result<List<Tree>, Memory>
    ensures { IfOk result (λ all. all ≡ items ++ item ∷ []) }
{
    let mut all = items;
    all.push(item)?;
    Ok(all)
}

/// An entry taken in among unique ones.
#[cycle(lay)]
fn take_in(
    item: &Tree,
    entry: Option<Tree>,
    items: List<Tree>,
    firsts: &mut TextMap<usize>,
    kind: EntryKind,
    alloc: Global,
) -> Result<List<Tree>, MergeRefusal>
    requires { AreNoted kind firsts.old items }
    ensures joins { UpGives result (entry_taken kind items (laid item.now) entry) }
    ensures noted { IfOk result (λ all. AreNoted kind firsts.new all) }
{
    match entry {
        None => Ok(items),
        Some(entry) => match place_noted(alloc, firsts, kind, &entry, items.as_slice())? {
            Some(at) => merge_at(item, entry, items, firsts, kind, at, alloc),
            None => Ok(note_last(alloc, firsts, kind, items, entry)?),
        },
    }
}

/// An entry in the place of the one that it is laid over.
#[cycle(lay)]
fn merge_at(
    item: &Tree,
    entry: Tree,
    items: List<Tree>,
    firsts: &mut TextMap<usize>,
    kind: EntryKind,
    at: usize,
    alloc: Global,
) -> Result<List<Tree>, MergeRefusal>
    requires within { at < length items }
    requires noted { AreNoted kind firsts.old items }
    ensures joins { UpGives result (entry_placed items (laid item.now) entry (Some at)) }
    ensures noted { IfOk result (λ all. AreNoted kind firsts.new all) }
{
    let mut all = items;
    let old = all.replace(at, Tree::Null);
    match lay_at(item, old, at, alloc) {
        Ok(merged) => {
            let merged = merged.unwrap_or(entry);
            note(alloc, firsts, kind, &merged, at)?;
            drop(all.replace(at, merged));
            Ok(all)
        }
        Err(refusal) => Err(refusal),
    }
}

/// An item laid over the one at a place.
#[cycle(lay)]
fn lay_at(item: &Tree, old: Tree, at: usize, alloc: Global) -> Result<Option<Tree>, MergeRefusal>
    ensures { UpGives result (under (Index (place at)) (laid item.now Standing.Item [] old)) }
{
    match lay(item, old, Standing::Item, Spot::Plain, alloc) {
        Ok(merged) => Ok(merged),
        Err(refusal) => Err(with_step(refusal, Step::Index(place(at)))?),
    }
}
