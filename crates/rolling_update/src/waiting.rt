//! For which slot each one waits.

ghost use Rattle.std.specs.Prelude.{◌≡◌, ◌↔◌, ◌≤◌, ◌-◌, ◌++◌, ◌∷◌, [], ℕ, None, Some, bytes_eq, false, filter, if◌then◌else◌, IfOk, OnOk, length, map, slice_get, true, unwrap_or};
ghost use Rattle.std.specs.Option.{option_map_or};
ghost use Rattle.rolling_update.specs.Needs.{AreWaited, is_rolled_at, rolling, waits_at};
ghost use Rattle.run_model.specs.Numbers.{numbers_from};
ghost use Rattle.run_model.specs.Plans.{IsWhole, slot_at};
ghost use Rattle.run_model.specs.Rolling.{is_rolled};

use crate::finder::Finder;
use engine_types::Slot;
use std::alloc::Global;
use tree_base::{Memory, item_at};

/// For each slot the number of the one for which it waits, if any: slots are in order of service and number, so of the rolled ones
/// of all services those of one stand in a row, and a slot waits for the one that stands as many rolled ones before as are
/// replaced at a time, where that is of its service.
pub(crate) fn all_waited(
    alloc: Global,
    finder: &Finder<'_>,
    rolled: &[bool],
) -> Result<Vec<Option<u64>>, Memory>
    requires whole { IsWhole finder.now.scene.declared }
    requires rolled { rolled.now
        ≡ map (is_rolled (rolling finder.now.scene)) finder.now.scene.declared.slots }
    ensures { IfOk result (λ waited. AreWaited finder.now.scene waited.items) }
{
    let mut waited = Vec::new(alloc);
    let mut row = Vec::new(alloc);
    for at in 0..finder.count() {
        let number = at as u64;
        let is_rolled = flag_at(rolled, at);
        waited.push(waited_for(finder, row.as_slice(), is_rolled, number))?;
        push_if(&mut row, number, is_rolled)?;
    }
    Ok(waited)
}

/// The number of the slot for which the one with this number waits, where these are the rolled ones before it.
fn waited_for(finder: &Finder<'_>, row: &[u64], is_rolled: bool, number: u64) -> Option<u64>
    requires whole { IsWhole finder.now.scene.declared }
    requires row { row.now ≡ filter (is_rolled_at finder.now.scene) (numbers_from 0 number) }
    requires rolled { is_rolled ≡ is_rolled_at finder.now.scene number }
    ensures { (t : ℕ) → (result ≡ Some t) ↔ (waits_at finder.now.scene number t ≡ true) }
{
    if !is_rolled {
        return None;
    }
    let slot = finder.slot(number)?;
    let count = finder.roll_of(slot)?;
    let other = item_before(row, count)?;
    if is_of_service(finder, other, slot) {
        Some(other)
    } else {
        None
    }
}

/// The item that stands so many places before the end. No memory.
fn item_before(row: &[u64], count: u32) -> Option<u64>
    ensures { (t : ℕ) → (result ≡ Some t)
        ↔ ((count ≤ length row.now) × (slice_get row.now (length row.now - count) ≡ Some t)) }
{
    let at = row.len().checked_sub(count as usize)?;
    item_at(row, at).copied()
}

/// Whether the slot with a number is of another one's service. No memory.
fn is_of_service(finder: &Finder<'_>, number: u64, slot: &Slot) -> bool
    ensures { result ≡ option_map_or (λ other. bytes_eq slot.now.service other.service)
        (slot_at finder.now.scene.declared number) false }
{
    match finder.slot(number) {
        Some(other) => slot.service == other.service,
        None => false,
    }
}

/// The answer at a place, and no past the last. No memory.
pub(crate) fn flag_at(flags: &[bool], at: usize) -> bool
    ensures { result ≡ unwrap_or (slice_get flags.now at) false }
{
    match item_at(flags, at) {
        Some(flag) => *flag,
        None => false,
    }
}

/// The number at a place, if any. No memory.
pub(crate) fn waited_at(waited: &[Option<u64>], at: usize) -> Option<u64>
    ensures { result ≡ unwrap_or (slice_get waited.now at) None }
{
    match item_at(waited, at) {
        Some(number) => *number,
        None => None,
    }
}

/// Puts a number last where this is asked.
fn push_if(numbers: &mut Vec<u64>, number: u64, is_asked: bool) -> Result<(), Memory>
    ensures { OnOk result (numbers.new.items ≡ numbers.old.items
        ++ (if is_asked then number ∷ [] else [])) }
{
    if is_asked {
        numbers.push(number)?;
    }
    Ok(())
}
