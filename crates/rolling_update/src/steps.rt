//! The starts of a plan, by the slots that they are of.

ghost use Rattle.std.specs.Prelude.{◌≡◌, ◌++◌, ◌∷◌, [], false, if◌then◌else◌, IfOk, OnOk, Some, filter};
ghost use Rattle.std.specs.List.{list_any};
ghost use Rattle.std.specs.Option.{option_map_or};
ghost use Rattle.rolling_update.specs.Needs.{IsUpPlan, rolling, starts_at, starts_of};
ghost use Rattle.run_model.specs.Plans.{is_start_of, is_unstarted, slot_at};

use crate::finder::Finder;
use engine_types::{Action, ActionKind};
use tree_base::{Memory, item_at};

/// Whether an action starts the slot with a number, as one does where `up` is to start it. No memory.
pub(crate) fn is_started(finder: &Finder<'_>, number: u64) -> bool
    requires { IsUpPlan finder.now.scene.declared finder.now.scene.seen finder.now.actions }
    ensures { result ≡ option_map_or (is_unstarted (rolling finder.now.scene))
        (slot_at finder.now.scene.declared number) false }
{
    any_starts(finder.actions(), finder.steps_under(number), number)
}

/// Whether one of the actions at some places starts the slot with a number. No memory.
fn any_starts(actions: &[Action], places: &[u64], number: u64) -> bool
    ensures { result ≡ list_any (starts_at actions.now number) places.now }
{
    for place in places {
        if starts_at(actions, *place, number) {
            return true;
        }
    }
    false
}

/// Whether the action at a place starts the slot with a number. No memory.
fn starts_at(actions: &[Action], place: u64, number: u64) -> bool
    ensures { result ≡ starts_at actions.now number place }
{
    match item_at(actions, place as usize) {
        Some(action) => is_start(action.kind, number),
        None => false,
    }
}

fn is_start(kind: ActionKind, number: u64) -> bool
    ensures { result ≡ is_start_of number (Some kind) }
{
    match kind {
        ActionKind::StartSlot { slot } => u64::from(slot) == number,
        _ => false,
    }
}

/// Puts the places last of the actions that start the slot with a number.
pub(crate) fn push_starts(
    added: &mut Vec<u32>,
    finder: &Finder<'_>,
    number: u64,
) -> Result<(), Memory>
    ensures { OnOk result (added.new.items
        ≡ added.old.items ++ starts_of finder.now.actions number) }
{
    push_starts_among(added, finder.actions(), finder.steps_under(number), number)
}

/// Puts those of some places last whose actions start the slot with a number.
fn push_starts_among(
    added: &mut Vec<u32>,
    actions: &[Action],
    places: &[u64],
    number: u64,
) -> Result<(), Memory>
    ensures { OnOk result (added.new.items ≡ added.old.items
        ++ filter (starts_at actions.now number) places.now) }
{
    for place in places {
        push_if(added, *place, starts_at(actions, *place, number))?;
    }
    Ok(())
}

/// Puts a place last where this is asked.
pub(crate) fn push_if(added: &mut Vec<u32>, place: u64, is_asked: bool) -> Result<(), Memory>
    ensures { OnOk result (added.new.items ≡ added.old.items
        ++ (if is_asked then place ∷ [] else [])) }
{
    if is_asked {
        added.push(number_of(place)?)?;
    }
    Ok(())
}

/// A place as a number of 32 bits. No memory holds a list with a place past them.
fn number_of(place: u64) -> Result<u32, Memory>
    ensures { IfOk result (λ number. number ≡ place) }
{
    match u32::try_from(place) {
        Ok(number) => Ok(number),
        Err(_) => Err(Memory),
    }
}
