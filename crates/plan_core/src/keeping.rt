//! Which containers the slots keep, and which slots are updated. Each slot is compared with its own containers alone.

ghost use Rattle.std.specs.Prelude.{◌≡◌, ◌++◌, ◌∷◌, [], filter, if◌then◌else◌, map, option_and_then, slice_get, IfOk, OnOk};
ghost use Rattle.std.specs.List.{list_any};
ghost use Rattle.std.specs.Option.{option_copied, option_map_or};
ghost use Rattle.tree_base.specs.ByteOrder.{is_before, least_by};
ghost use Rattle.plan_core.specs.Finding.{container_text};
ghost use Rattle.plan_core.specs.Index.{seen_entries, under_each};
ghost use Rattle.plan_core.specs.Keeping.{agrees_at, containers_under, id_in, is_slots_at, kept_under, texts_under};
ghost use Rattle.plan_core.specs.Rows.{id_at};
ghost use Rattle.run_model.specs.Plans.{AreKeptPlaces, has_container, is_updated, kept_of};

use crate::kinds::id_at;
use crate::slot_texts::slot_text;
use crate::text_index::{TextIndex, push_under};
use engine_types::{Declared, Listed, Seen, Slot};
use run_lookups::{agrees_seen, is_of_slot};
use std::alloc::Global;
use tree_base::{Memory, Text, item_at};

/// What is looked up once for all slots: for each the place of the container that it keeps, among those that were
/// seen, and whether it is updated.
#[derive(Drop)]
pub(crate) struct Found {
    pub(crate) kept: Vec<Option<u64>>,
    pub(crate) updated: Vec<bool>,
}

impl Found {
    /// Looks for the containers of the slots, which are found under these texts.
    pub(crate) fn new(
        alloc: Global,
        declared: &Declared,
        seen: &Seen,
        texts: &[Text],
    ) -> Result<Found, Memory>
        requires { texts.now ≡ map container_text seen.now.containers }
        ensures kept { IfOk result (λ found.
            AreKeptPlaces declared.now seen.now found.kept.items) }
        ensures updated { IfOk result (λ found.
            found.updated.items ≡ map (is_updated declared.now seen.now) declared.now.slots) }
    {
        let rows = texts_under(alloc, texts)?;
        let kept = all_kept(alloc, declared, seen, &rows)?;
        let updated = all_updated(alloc, declared, seen, &rows)?;
        Ok(Found { kept, updated })
    }
}

/// The places of texts under these: where they are the texts of the containers that were seen, the places of these; where they
/// are those of the slots, the numbers of these.
pub fn texts_under<'a>(alloc: Global, texts: &'a [Text]) -> Result<TextIndex<'a>, Memory>
    ensures { IfOk result (λ index. index ≡ texts_under texts.now) }
{
    let mut entries = Vec::new(alloc);
    for at in 0..texts.len() {
        push_text(&mut entries, texts, at)?;
    }
    TextIndex::new(alloc, entries)
}

/// Puts a place last, under the text that stands there.
fn push_text<'a>(
    entries: &mut Vec<(&'a str, u64)>,
    texts: &'a [Text],
    at: usize,
) -> Result<(), Memory>
    ensures { OnOk result (seen_entries entries.new.items ≡ seen_entries entries.old.items
        ++ under_each (option_map_or (λ text. text ∷ []) (slice_get texts.now at) []) at) }
{
    match item_at(texts, at) {
        Some(text) => push_under(entries, text.as_str(), at as u64),
        None => Ok(()),
    }
}

/// The places, among the containers that were seen, of those that the slots keep, in the slots' order.
fn all_kept(
    alloc: Global,
    declared: &Declared,
    seen: &Seen,
    rows: &TextIndex<'_>,
) -> Result<Vec<Option<u64>>, Memory>
    requires { rows.now ≡ containers_under seen.now }
    ensures { IfOk result (λ kept. AreKeptPlaces declared.now seen.now kept.items) }
{
    let mut all = Vec::new(alloc);
    for slot in declared.slots.as_slice() {
        all.push(kept_place(alloc, declared, seen, rows, slot)?)?;
    }
    Ok(all)
}

/// The place of the container that a slot keeps.
fn kept_place(
    alloc: Global,
    declared: &Declared,
    seen: &Seen,
    rows: &TextIndex<'_>,
    slot: &Slot,
) -> Result<Option<u64>, Memory>
    requires { rows.now ≡ containers_under seen.now }
    ensures { IfOk result (λ place.
        option_and_then (slice_get seen.now.containers) place ≡
        kept_of declared.now seen.now slot.now) }
{
    let text = slot_text(alloc, slot)?;
    kept_among(alloc, declared, seen, slot, rows.find(text.as_str()))
}

/// Of some places of containers that of the one which agrees with a slot and has the least id.
fn kept_among(
    alloc: Global,
    declared: &Declared,
    seen: &Seen,
    slot: &Slot,
    places: &[u64],
) -> Result<Option<u64>, Memory>
    ensures { IfOk result (λ place. place
        ≡ least_by (id_at seen.now.containers)
        (filter (agrees_at declared.now seen.now slot.now) places.now)) }
{
    let mut best = None;
    for at in (0..places.len()).rev() {
        let place = places[at];
        if agrees_at(alloc, declared, seen, slot, place)? {
            best = match best {
                Some(other) => Some(lesser(seen, other, place)),
                None => Some(place),
            };
        }
    }
    Ok(best)
}

/// Of two places of containers the first where its container's id is less, else the second. No memory.
fn lesser(seen: &Seen, other: u64, place: u64) -> u64
    ensures { result ≡ (if is_before (id_at seen.now.containers other)
        (id_at seen.now.containers place) then other else place) }
{
    let rows = seen.containers.as_slice();
    if id_at(rows, other) < id_at(rows, place) {
        other
    } else {
        place
    }
}

/// Whether the container at a place agrees with a slot.
fn agrees_at(
    alloc: Global,
    declared: &Declared,
    seen: &Seen,
    slot: &Slot,
    place: u64,
) -> Result<bool, Memory>
    ensures { IfOk result (λ agreeing.
        agreeing ≡ agrees_at declared.now seen.now slot.now place) }
{
    match seen.containers.get(place as usize) {
        Some(row) => agrees_seen(alloc, declared, seen, slot, row),
        None => Ok(false),
    }
}

/// The container at a place, if any. No memory.
pub(crate) fn row_at<'a>(seen: &'a Seen, place: Option<u64>) -> Option<&'a Listed>
    ensures { option_copied result ≡ option_and_then (slice_get seen.now.containers) place }
{
    match place {
        Some(place) => seen.containers.get(place as usize),
        None => None,
    }
}

/// The numbers of the slots, under the ids of the containers that they keep at these places.
pub(crate) fn kept_under<'a>(
    alloc: Global,
    seen: &'a Seen,
    kept: &[Option<u64>],
) -> Result<TextIndex<'a>, Memory>
    ensures { IfOk result (λ index. index ≡ kept_under seen.now kept.now) }
{
    let mut entries = Vec::new(alloc);
    for at in 0..kept.len() {
        push_kept(&mut entries, seen, kept, at)?;
    }
    TextIndex::new(alloc, entries)
}

/// Puts a number last, under the id of the container at the place that stands under it.
fn push_kept<'a>(
    entries: &mut Vec<(&'a str, u64)>,
    seen: &'a Seen,
    kept: &[Option<u64>],
    at: usize,
) -> Result<(), Memory>
    ensures { OnOk result (seen_entries entries.new.items ≡ seen_entries entries.old.items
        ++ under_each (option_map_or (id_in seen.now) (slice_get kept.now at) []) at) }
{
    if let Some(place) = item_at(kept, at) {
        if let Some(row) = row_at(seen, *place) {
            entries.push((row.id.as_str(), at as u64))?;
        }
    }
    Ok(())
}

/// For each slot whether it is updated: it keeps no container, and one of it was seen.
fn all_updated(
    alloc: Global,
    declared: &Declared,
    seen: &Seen,
    rows: &TextIndex<'_>,
) -> Result<Vec<bool>, Memory>
    requires { rows.now ≡ containers_under seen.now }
    ensures { IfOk result (λ updated.
        updated.items ≡ map (is_updated declared.now seen.now) declared.now.slots) }
{
    let mut all = Vec::new(alloc);
    for slot in declared.slots.as_slice() {
        all.push(is_updated(alloc, declared, seen, rows, slot)?)?;
    }
    Ok(all)
}

fn is_updated(
    alloc: Global,
    declared: &Declared,
    seen: &Seen,
    rows: &TextIndex<'_>,
    slot: &Slot,
) -> Result<bool, Memory>
    requires { rows.now ≡ containers_under seen.now }
    ensures { IfOk result (λ updated. updated ≡ is_updated declared.now seen.now slot.now) }
{
    let kept = kept_place(alloc, declared, seen, rows, slot)?;
    match row_at(seen, kept) {
        Some(_) => Ok(false),
        None => has_container(alloc, declared, seen, rows, slot),
    }
}

/// Whether a container of a slot was seen.
fn has_container(
    alloc: Global,
    declared: &Declared,
    seen: &Seen,
    rows: &TextIndex<'_>,
    slot: &Slot,
) -> Result<bool, Memory>
    requires { rows.now ≡ containers_under seen.now }
    ensures { IfOk result (λ has. has ≡ has_container declared.now seen.now slot.now) }
{
    let text = slot_text(alloc, slot)?;
    any_is_slots(alloc, declared, seen, slot, rows.find(text.as_str()))
}

/// Whether one of the containers at some places is a slot's.
fn any_is_slots(
    alloc: Global,
    declared: &Declared,
    seen: &Seen,
    slot: &Slot,
    places: &[u64],
) -> Result<bool, Memory>
    ensures { IfOk result (λ has.
        has ≡ list_any (is_slots_at declared.now seen.now slot.now) places.now) }
{
    for place in places {
        if is_slots_at(alloc, declared, seen, slot, *place)? {
            return Ok(true);
        }
    }
    Ok(false)
}

/// Whether the container at a place is a slot's.
fn is_slots_at(
    alloc: Global,
    declared: &Declared,
    seen: &Seen,
    slot: &Slot,
    place: u64,
) -> Result<bool, Memory>
    ensures { IfOk result (λ is. is ≡ is_slots_at declared.now seen.now slot.now place) }
{
    match seen.containers.get(place as usize) {
        Some(row) => is_of_slot(alloc, &declared.project, slot, &row.labels),
        None => Ok(false),
    }
}
