//! What requests name: kept containers and the seconds of stops by search, and the ids that entries told.

ghost use Rattle.std.specs.Prelude.{◌≡◌, Some, if◌then◌else◌, reverse};
ghost use Rattle.std.specs.Option.{option_copied};
ghost use Rattle.run_model.specs.Journals.{Badly, Well, ended_as, is_good, standing};
ghost use Rattle.run_model.specs.Plans.{kind_of};
ghost use Rattle.run_model.specs.Requests.{made_id};
ghost use Rattle.run_report.specs.Telling.{standing_by};
ghost use Rattle.run_requests.specs.Asking.{ids_of};
ghost use Rattle.run_requests.specs.Setups.{setup_of};

use crate::actions::{create_of, kind_of, make_of};
use crate::standings::deciding;
use engine_types::{ActionKind, Entry, Listed, Outcome, Plan, Reply};
use run_lookups::{is_good, kept_of};
use run_requests::{Run, ToldIds, stop_seconds};
use std::alloc::Global;
use tree_base::{Memory, Text};

/// What entries of a run's journal told.
#[derive(Clone, Copy)]
pub(crate) struct Past<'a> {
    pub(crate) run: &'a Run<'a>,
    pub(crate) entries: &'a [Entry],
}

impl ToldIds for Past<'_> {
    ghost ids = { λ past. ids_of (setup_of past.run.now) (reverse past.entries.now) };

    fn kept(&self, alloc: Global, slot: u32) -> Result<Option<&Listed>, Memory> {
        match self.run.declared.slots.get(slot as usize) {
            Some(declared) => kept_of(alloc, self.run.declared, self.run.seen, declared),
            None => Ok(None),
        }
    }

    fn stop_seconds(&self, alloc: Global, container: u64) -> Result<Option<u64>, Memory> {
        match self.run.seen.containers.get(container as usize) {
            Some(row) => Ok(Some(stop_seconds(alloc, self.run, row)?)),
            None => Ok(None),
        }
    }

    fn creator(&self, slot: u32) -> Option<usize> {
        create_of(self.run.plan, slot)
    }

    fn maker(&self, network: u32) -> Option<usize> {
        make_of(self.run.plan, network)
    }

    fn told(&self, action: usize) -> Option<&Text> {
        told_id(self.run, self.entries, action)
    }
}

/// The id that an action was told.
fn told_id<'a>(run: &Run<'_>, past: &'a [Entry], action: usize) -> Option<&'a Text>
    ensures { option_copied result ≡
        made_id (standing (setup_of run.now) (reverse past.now) action) }
{
    match deciding(past, action) {
        Some(entry) => told_by(run.plan, entry, action),
        None => None,
    }
}

/// The id that an action was told by the entry that says how it stands.
fn told_by<'a>(plan: &Plan, entry: &'a Entry, action: usize) -> Option<&'a Text>
    ensures { option_copied result ≡ made_id (standing_by plan.now.actions entry.now action) }
{
    match entry {
        Entry::Ended { outcome, .. } => told_of(plan, action, outcome),
        _ => None,
    }
}

/// The id that an action was told by its end.
fn told_of<'a>(plan: &Plan, action: usize, outcome: &'a Outcome) -> Option<&'a Text>
    ensures { option_copied result ≡
        made_id (ended_as (kind_of plan.now.actions action) outcome.now) }
{
    match kind_of(plan, action) {
        Some(kind) => told_at_end(kind, outcome),
        None => None,
    }
}

fn told_at_end(kind: ActionKind, outcome: &Outcome) -> Option<&Text>
    ensures { option_copied result ≡ made_id (ended_as (Some kind) outcome.now) }
{
    match outcome {
        Outcome::Answered(reply) => told_in(kind, reply),
        Outcome::Lost(_) => None,
        Outcome::NotSent => None,
        Outcome::Memory => None,
    }
}

/// The id in a reply, where it is a good one.
fn told_in(kind: ActionKind, reply: &Reply) -> Option<&Text>
    ensures { option_copied result ≡
        made_id (if is_good kind reply.now then Well reply.now else Badly) }
{
    if is_good(kind, reply) {
        id_in(reply)
    } else {
        None
    }
}

fn id_in(reply: &Reply) -> Option<&Text>
    ensures { option_copied result ≡ made_id (Well reply.now) }
{
    match reply {
        Reply::Made(id) => Some(id),
        Reply::Containers(_) => None,
        Reply::State(_) => None,
        Reply::Bytes(_) => None,
        Reply::Done => None,
        Reply::Already => None,
        Reply::Networks(_) => None,
        Reply::Volumes(_) => None,
        Reply::ImageId(_) => None,
        Reply::Pulled => None,
        Reply::PullFailed(_) => None,
        Reply::Refused { .. } => None,
    }
}
