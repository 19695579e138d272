//! What requests name, found where a ledger keeps it.

ghost use Rattle.std.specs.Prelude.{◌≡◌, None, Some, get_or, option_and_then, slice_get};
ghost use Rattle.std.specs.Option.{option_copied};
ghost use Rattle.ledger_rows.specs.ActionRows.{state_at};
ghost use Rattle.ledger_requests.specs.Sources.{id_in, id_of, ids_in, told_by};

use crate::sources::Sources;
use engine_types::{Entry, Listed, Outcome, Plan, Reply, Seen};
use ledger_rows::{ActionRows, State};
use run_requests::ToldIds;
use std::alloc::Global;
use tree_base::{Memory, Text};

impl ToldIds for Sources<'_> {
    ghost ids = { λ sources. ids_in sources };

    fn kept(&self, _alloc: Global, slot: u32) -> Result<Option<&Listed>, Memory> {
        Ok(kept_row(self.run.plan, self.run.seen, slot))
    }

    fn stop_seconds(&self, _alloc: Global, container: u64) -> Result<Option<u64>, Memory> {
        Ok(seconds_at(self.seconds, container as usize))
    }

    fn creator(&self, slot: u32) -> Option<usize> {
        place_at(self.creates, slot)
    }

    fn maker(&self, network: u32) -> Option<usize> {
        place_at(self.makes, network)
    }

    fn told(&self, action: usize) -> Option<&Text> {
        told_id(self.rows, self.journal, action)
    }
}

/// The container that a slot keeps, by the plan's places.
fn kept_row<'a>(plan: &Plan, seen: &'a Seen, slot: u32) -> Option<&'a Listed>
    ensures { option_copied result ≡ option_and_then (slice_get seen.now.containers)
        (get_or plan.now.kept slot None) }
{
    match kept_place(plan.kept.as_slice(), slot) {
        Some(place) => seen.containers.get(place as usize),
        None => None,
    }
}

/// The place of the container that a slot keeps.
fn kept_place(places: &[Option<u64>], slot: u32) -> Option<u64>
    ensures { result ≡ get_or places.now slot None }
{
    match places.get(slot as usize) {
        Some(place) => *place,
        None => None,
    }
}

/// The number at a place, if any.
fn seconds_at(seconds: &[u64], at: usize) -> Option<u64>
    ensures { result ≡ slice_get seconds.now at }
{
    match seconds.get(at) {
        Some(seconds) => Some(*seconds),
        None => None,
    }
}

/// The number of the action that stands at a place, if any.
fn place_at(places: &[Option<u32>], at: u32) -> Option<usize>
    ensures { result ≡ get_or places.now at None }
{
    match places.get(at as usize) {
        Some(Some(place)) => Some(*place as usize),
        Some(None) => None,
        None => None,
    }
}

/// The id that an action was told, by the entry that its row names.
fn told_id<'a>(rows: &ActionRows, journal: &'a [Entry], action: usize) -> Option<&'a Text>
    ensures { option_copied result ≡ told_by journal.now (state_at rows.now action) }
{
    match rows.state_or_free(action) {
        State::Well(at) => match journal.get(at) {
            Some(entry) => id_in(entry),
            None => None,
        },
        _ => None,
    }
}

fn id_in(entry: &Entry) -> Option<&Text>
    ensures { option_copied result ≡ id_in (Some entry.now) }
{
    match entry {
        Entry::Ended { outcome, .. } => id_of(outcome),
        _ => None,
    }
}

fn id_of(outcome: &Outcome) -> Option<&Text>
    ensures { option_copied result ≡ id_of outcome.now }
{
    match outcome {
        Outcome::Answered(reply) => match reply {
            Reply::Made(id) => Some(id),
            _ => None,
        },
        _ => None,
    }
}
