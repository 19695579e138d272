ghost use Rattle.std.specs.Prelude.{◌≡◌, IfOk, find, map};
ghost use Rattle.std.specs.Option.{option_map_or};
ghost use Rattle.tree_base.specs.Limits.{usual_stop_seconds};
ghost use Rattle.run_model.specs.Labels.{names_slot};
ghost use Rattle.ledger_start.specs.Seconds.{is_named, seconds_among, seconds_at, seconds_for, slots_under};

use engine_types::{Declared, Listed, RunLimits};
use plan_core::{TextIndex, container_text, texts_of_slots, texts_under};
use run_lookups::names_slot;
use std::alloc::Global;
use tree_base::limits::USUAL_STOP_SECONDS;
use tree_base::{List, Memory};

/// For each container how many seconds its stop waits: as asked for the run, else as the slot of its labels says, else 10. The
/// slots are found under their texts, so that no container is compared with the slots of others.
pub(crate) fn all_seconds(
    alloc: Global,
    declared: &Declared,
    limits: RunLimits,
    rows: &[Listed],
) -> Result<List<u64>, Memory>
    ensures { IfOk result (λ seconds. seconds ≡ map (seconds_for declared.now limits) rows.now) }
{
    match rows {
        [] => Ok(List::new(alloc)),
        [_, ..] => seconds_by_texts(alloc, declared, limits, rows),
    }
}

fn seconds_by_texts(
    alloc: Global,
    declared: &Declared,
    limits: RunLimits,
    rows: &[Listed],
) -> Result<List<u64>, Memory>
    ensures { IfOk result (λ seconds. seconds ≡ map (seconds_for declared.now limits) rows.now) }
{
    let texts = texts_of_slots(alloc, declared.slots.as_slice())?;
    let slots = texts_under(alloc, texts.as_slice())?;
    seconds_by(alloc, declared, limits, &slots, rows)
}

fn seconds_by(
    alloc: Global,
    declared: &Declared,
    limits: RunLimits,
    slots: &TextIndex<'_>,
    rows: &[Listed],
) -> Result<List<u64>, Memory>
    requires { slots.now ≡ slots_under declared.now }
    ensures { IfOk result (λ seconds. seconds ≡ map (seconds_for declared.now limits) rows.now) }
{
    let mut all = List::new(alloc);
    for row in rows {
        let seconds = seconds_of(alloc, declared, limits, slots, row)?;
        all.push(seconds)?;
    }
    Ok(all)
}

fn seconds_of(
    alloc: Global,
    declared: &Declared,
    limits: RunLimits,
    slots: &TextIndex<'_>,
    row: &Listed,
) -> Result<u64, Memory>
    requires { slots.now ≡ slots_under declared.now }
    ensures { IfOk result (λ seconds. seconds ≡ seconds_for declared.now limits row.now) }
{
    match limits.stop_seconds {
        Some(seconds) => Ok(u64::from(seconds)),
        None => slot_seconds(alloc, declared, slots, row),
    }
}

fn slot_seconds(
    alloc: Global,
    declared: &Declared,
    slots: &TextIndex<'_>,
    row: &Listed,
) -> Result<u64, Memory>
    requires { slots.now ≡ slots_under declared.now }
    ensures { IfOk result (λ seconds. seconds
        ≡ option_map_or (λ slot. slot.stop_seconds)
        (find (λ slot. names_slot slot row.now.labels) declared.now.slots) usual_stop_seconds) }
{
    let text = container_text(alloc, row)?;
    seconds_among(alloc, declared, row, slots.find(text.as_str()))
}

/// As the first slot says that a container's labels name, of those with these numbers.
fn seconds_among(
    alloc: Global,
    declared: &Declared,
    row: &Listed,
    numbers: &[u64],
) -> Result<u64, Memory>
    ensures { IfOk result (λ seconds. seconds
        ≡ seconds_among declared.now row.now numbers.now) }
{
    for number in numbers {
        if is_named(alloc, declared, row, *number)? {
            return Ok(seconds_at(declared, *number));
        }
    }
    Ok(USUAL_STOP_SECONDS)
}

/// Whether a container's labels name the slot with a number.
fn is_named(alloc: Global, declared: &Declared, row: &Listed, number: u64) -> Result<bool, Memory>
    ensures { IfOk result (λ named. named ≡ is_named declared.now row.now number) }
{
    match declared.slots.get(number as usize) {
        Some(slot) => names_slot(alloc, slot, &row.labels),
        None => Ok(false),
    }
}

/// How many seconds the stop of a slot waits, by its number. No memory.
fn seconds_at(declared: &Declared, number: u64) -> u64
    ensures { result ≡ seconds_at declared.now number }
{
    match declared.slots.get(number as usize) {
        Some(slot) => slot.stop_seconds,
        None => USUAL_STOP_SECONDS,
    }
}
