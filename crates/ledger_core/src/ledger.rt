ghost use Rattle.std.specs.Prelude.{◌≡◌, ◌∷◌, ◌≤◌, ◌||◌, ◌<◌, [], ℕ, IfOk, IsSomeAnd, OnErr, OnOk, Some, false, length, true};
ghost use Rattle.engine_types.specs.declared.Entry.{Entry};
ghost use Rattle.engine_types.specs.declared.LateWhy.{LateWhy};
ghost use Rattle.engine_types.specs.declared.ActionKind.TheVariants.{StartSlot};
ghost use Rattle.run_model.specs.Journals.{Badly, Watch, Work, ended_as, holding, is_ending, is_well};
ghost use Rattle.run_model.specs.Legal.{Look, Pause, Take};
ghost use Rattle.run_model.specs.Plans.{kind_of};
ghost use Rattle.run_model.specs.Requests.{action_request, poll_request};
ghost use Rattle.journal_laws.specs.Courses.{MayAsk, MayStop, entries, grown, setup_of};
ghost use Rattle.journal_laws.specs.Laws.{decided};
ghost use Rattle.ledger_core.specs.Answers.{IsLastEntry};
ghost use Rattle.ledger_ends.specs.Losses.{HasNoLosses};
ghost use Rattle.ledger_requests.specs.Sources.{AreSources, past_in, setup_in};
ghost use Rattle.ledger_core.specs.Beginning.{run_of};
ghost use Rattle.ledger_core.specs.Ledgers.{IsLedger, IsPlanned, counting, decision_of};

use crate::places::Places;
use crate::seen::first_seen;
use crate::started::Started;
use crate::step::Step;
use engine_types::{
    ActionKind, Declared, Entry, LateWhy as Why, Outcome, Plan, Request, RunLimits,
};
use ledger_ends::{Dependents, Losses, RunSoFar, claim, end_badly, end_well};
use ledger_polls::end_poll;
use ledger_requests::{Sources, action_request, poll_request};
use ledger_rows::{ActionRows, WorkerRow, is_other_out};
use run_lookups::is_well;
use run_requests::Run;
use slot_rows::SlotRows;
use std::alloc::Global;
use std::marker::Model;
use tree_base::limits::MOST_ENTRIES;
use tree_base::{List, Memory, ReservedList};

/// How many entries a grant or a pause takes room for: what 16 workers may still enter without memory, and its own.
const ENTRIES_AHEAD: usize = 50;

/// The ledger of a run. Contracts see what the run is of, and its journal.
#[derive(Drop)]
pub struct Ledger {
    declared: Declared,
    plan: Plan,
    limits: RunLimits,
    journal: ReservedList<Entry>,
    rows: ActionRows,
    slots: SlotRows,
    workers: Vec<WorkerRow>,
    ending: bool,
    losses: Losses,
    dependents: Dependents,
    places: Places,
}

impl Model for Ledger {
    ghost use Rattle.journal_laws.specs.Courses.{Course, setup_of};
    ghost use Rattle.ledger_ends.specs.Losses.{HasNoLosses};
    ghost use Rattle.ledger_core.specs.Ledgers.{IsLedger, IsPlanned};

    ghost Value = { Course };

    ghost view = { λ l. record {
      declared = l.declared;
      plan = l.plan;
      limits = l.limits;
      journal = l.journal.items;
    } };

    ghost invariant = { λ l. IsLedger (setup_of (record {
      declared = l.declared;
      plan = l.plan;
      limits = l.limits;
      journal = l.journal.items;
    })) l.journal l.rows l.slots l.workers.items
        l.ending
        × IsPlanned (setup_of (record {
          declared = l.declared;
          plan = l.plan;
          limits = l.limits;
          journal = l.journal.items;
        })) l.plan.kept l.dependents l.places
        × HasNoLosses (setup_of (record {
          declared = l.declared;
          plan = l.plan;
          limits = l.limits;
          journal = l.journal.items;
        })) l.losses };
}

impl Ledger {
    /// A ledger over finished rows.
    pub fn of(
        declared: Declared,
        plan: Plan,
        limits: RunLimits,
        journal: ReservedList<Entry>,
        started: Started,
    ) -> Ledger
        requires ledger { IsLedger (setup_of (run_of declared plan limits journal.items)) journal
            started.rows started.slots started.workers.items false }
        requires planned { IsPlanned (setup_of (run_of declared plan limits journal.items))
            plan.kept started.dependents started.places }
        requires no_losses { HasNoLosses (setup_of (run_of declared plan limits journal.items))
            started.losses }
        ensures { result ≡ run_of declared plan limits journal.items }
    {
        Ledger {
            declared,
            plan,
            limits,
            journal,
            rows: started.rows,
            slots: started.slots,
            workers: started.workers,
            ending: false,
            losses: started.losses,
            dependents: started.dependents,
            places: started.places,
        }
    }

    /// What a worker's ask is answered. No memory; the work doesn't grow with the actions.
    pub(crate) fn decide(&self, worker: u32) -> Step
        requires { MayAsk self.now worker }
        ensures { decision_of result ≡ decided self.now worker }
    {
        if self.journal.len() >= MOST_ENTRIES {
            return Step::Full;
        }
        if self.ending {
            return Step::Go;
        }
        if let Some(action) = self.rows.first() {
            return Step::Take(action);
        }
        if let Some(slot) = self.slots.first() {
            return Step::Look(slot);
        }
        if is_other_out(&self.workers, worker) {
            return Step::Pause;
        }
        Step::Go
    }

    /// The request of an action, by what was told so far.
    pub(crate) fn action_request(
        &self,
        alloc: Global,
        action: u32,
    ) -> Result<Option<Request>, Memory>
        ensures { IfOk result (λ request.
            request ≡ action_request (setup_of self.now) (entries self.now) action) }
    {
        action_request(alloc, &self.sources(), action)
    }

    /// The request of a poll of a slot, by what was told so far.
    pub(crate) fn poll_request(&self, alloc: Global, slot: u32) -> Result<Option<Request>, Memory>
        ensures { IfOk result (λ request.
            request ≡ poll_request (setup_of self.now) (entries self.now) slot) }
    {
        poll_request(alloc, &self.sources(), slot)
    }

    /// Where the requests find what they name. No memory.
    fn sources(&self) -> Sources<'_>
        ensures sources { AreSources result }
        ensures setup { setup_in result ≡ setup_of self.now }
        ensures past { past_in result ≡ entries self.now }
    {
        let journal = self.journal.as_slice();
        let Some(seen) = first_seen(journal) else {
            unreachable!();
        };
        Sources {
            run: Run {
                declared: &self.declared,
                seen,
                plan: &self.plan,
                limits: self.limits,
            },
            rows: &self.rows,
            journal,
            creates: self.places.creates.as_slice(),
            makes: self.places.makes.as_slice(),
            seconds: self.places.seconds.as_slice(),
        }
    }

    /// Whether an action that ends so ends well. No memory.
    pub(crate) fn ends_well(&self, action: u32, outcome: &Outcome) -> bool
        ensures { result ≡ is_well (ended_as (kind_of self.now.plan.actions action) outcome.now) }
    {
        match self.plan.actions.get(action as usize) {
            Some(action) => is_well(action.kind, outcome),
            None => false,
        }
    }

    /// A worker leaves, by its last entry. No memory.
    pub(crate) fn leave(&mut self, worker: u32, last: Entry)
        requires ready { MayAsk self.old worker }
        requires last { IsLastEntry (setup_of self.old) (entries self.old) worker last }
        ensures { self.new ≡ grown self.old last }
    {
        let row = &mut self.workers[worker as usize];
        row.left = true;
        self.ending = ends_with(self.ending, &last);
        self.journal.push(last).unwrap();
    }

    /// A worker finds nothing to do yet.
    pub(crate) fn pause(&mut self, worker: u32) -> Result<(), Memory>
        requires ready { MayAsk self.old worker }
        requires decided { decided self.old worker ≡ Pause }
        ensures ok { OnOk result (self.new ≡ grown self.old (Entry.Idle worker)) }
        ensures err { OnErr result (self.new ≡ self.old) }
    {
        self.journal.reserve(ENTRIES_AHEAD)?;
        self.journal.push(Entry::Idle { worker }).unwrap();
        Ok(())
    }

    /// A worker is granted a poll of the slot that is polled next.
    pub(crate) fn look(&mut self, worker: u32, slot: u32) -> Result<(), Memory>
        requires ready { MayAsk self.old worker }
        requires decided { decided self.old worker ≡ Look slot }
        ensures ok { OnOk result (self.new ≡ grown self.old (Entry.Poll worker slot)) }
        ensures err { OnErr result (self.new ≡ self.old) }
    {
        self.journal.reserve(ENTRIES_AHEAD)?;
        let mut row = self.slots.row(slot);
        row.out = true;
        row.polls += 1;
        self.slots.set(slot, row);
        let own = &mut self.workers[worker as usize];
        own.out = true;
        self.journal.push(Entry::Poll { worker, slot }).unwrap();
        Ok(())
    }

    /// A worker claims the action that comes next.
    pub(crate) fn claim(&mut self, worker: u32, action: u32) -> Result<(), Memory>
        requires ready { MayAsk self.old worker }
        requires decided { decided self.old worker ≡ Take action }
        ensures ok { OnOk result (self.new ≡ grown self.old (Entry.Claim worker action)) }
        ensures err { OnErr result (self.new ≡ self.old) }
    {
        self.journal.reserve(ENTRIES_AHEAD)?;
        let so_far = RunSoFar {
            declared: &self.declared,
            plan: &self.plan,
            limits: self.limits,
            journal: self.journal.as_slice(),
        };
        claim(so_far, &mut self.rows, &mut self.slots, worker, action);
        let own = &mut self.workers[worker as usize];
        own.out = true;
        self.journal.push(Entry::Claim { worker, action }).unwrap();
        Ok(())
    }

    /// The action of a worker's permit ends well. No memory.
    pub(crate) fn end_well(&mut self, worker: u32, action: u32, outcome: Outcome)
        requires held { holding (entries self.old) worker ≡ Work action }
        requires good { is_well (ended_as (kind_of self.old.plan.actions action) outcome) ≡ true }
        ensures { self.new ≡ grown self.old (Entry.Ended worker outcome) }
    {
        let so_far = RunSoFar {
            declared: &self.declared,
            plan: &self.plan,
            limits: self.limits,
            journal: self.journal.as_slice(),
        };
        end_well(
            so_far,
            &mut self.rows,
            &self.dependents,
            worker,
            action,
            &outcome,
        );
        count_start(&mut self.slots, kind_at(&self.plan, action));
        let own = &mut self.workers[worker as usize];
        own.out = false;
        self.journal.push(Entry::Ended { worker, outcome }).unwrap();
    }

    /// The action of a worker's permit ends otherwise than well. No memory.
    pub(crate) fn end_badly(&mut self, worker: u32, action: u32, outcome: Outcome)
        requires held { holding (entries self.old) worker ≡ Work action }
        requires bad { ended_as (kind_of self.old.plan.actions action) outcome ≡ Badly }
        ensures { self.new ≡ grown self.old (Entry.Ended worker outcome) }
    {
        let so_far = RunSoFar {
            declared: &self.declared,
            plan: &self.plan,
            limits: self.limits,
            journal: self.journal.as_slice(),
        };
        end_badly(
            so_far,
            &mut self.rows,
            &mut self.slots,
            &mut self.losses,
            &self.dependents,
            worker,
            action,
            &outcome,
        );
        let own = &mut self.workers[worker as usize];
        own.out = false;
        self.journal.push(Entry::Ended { worker, outcome }).unwrap();
    }

    /// The poll of a worker's permit ends. No memory.
    pub(crate) fn end_poll(&mut self, worker: u32, slot: u32, outcome: Outcome)
        requires { holding (entries self.old) worker ≡ Watch slot }
        ensures { self.new ≡ grown self.old (Entry.Ended worker outcome) }
    {
        let so_far = RunSoFar {
            declared: &self.declared,
            plan: &self.plan,
            limits: self.limits,
            journal: self.journal.as_slice(),
        };
        end_poll(
            so_far,
            &mut self.rows,
            &mut self.slots,
            &mut self.losses,
            &self.dependents,
            worker,
            slot,
            &outcome,
        );
        let own = &mut self.workers[worker as usize];
        own.out = false;
        self.journal.push(Entry::Ended { worker, outcome }).unwrap();
    }

    /// A worker was asked to stop. No memory.
    pub fn stop(&mut self, worker: u32)
        requires { MayStop self.old worker }
        ensures { self.new ≡ grown self.old (Entry.Stop worker) }
    {
        let row = &mut self.workers[worker as usize];
        row.stopped = true;
        self.ending = true;
        self.journal.push(Entry::Stop { worker }).unwrap();
    }

    /// A worker read its clock at or past the deadline. No memory.
    pub fn late(&mut self, worker: u32, reading: u64)
        requires may { MayStop self.old worker }
        requires late { IsSomeAnd self.old.limits.deadline (λ deadline. deadline ≤ reading) }
        ensures { self.new ≡ grown self.old (Entry.Late worker (LateWhy.Deadline reading)) }
    {
        let row = &mut self.workers[worker as usize];
        row.stopped = true;
        self.ending = true;
        let why = Why::Deadline(reading);
        self.journal.push(Entry::Late { worker, why }).unwrap();
    }

    /// Hands back what the run is of, its plan and its journal. No memory.
    pub fn finish(self) -> (Declared, Plan, List<Entry>)
        ensures declared { result.0 ≡ self.declared }
        ensures plan { result.1 ≡ self.plan }
        ensures journal { result.2 ≡ self.journal }
    {
        let Ledger {
            declared,
            plan,
            journal,
            ..
        } = self;
        (declared, plan, journal.into_list())
    }
}

/// What kind an action is of. No memory.
fn kind_at(plan: &Plan, action: u32) -> Option<ActionKind>
    ensures { result ≡ kind_of plan.now.actions action }
{
    match plan.actions.get(action as usize) {
        Some(found) => Some(found.kind),
        None => None,
    }
}

/// Reports on the slot that an action of this kind starts count from now on. No memory.
fn count_start(slots: &mut SlotRows, kind: Option<ActionKind>)
    requires { (s : ℕ) → kind ≡ Some (StartSlot s) → s < length slots.old }
    ensures { slots.new ≡ counting kind slots.old }
{
    if let Some(ActionKind::StartSlot { slot }) = kind {
        let mut row = slots.row(slot);
        row.counts = true;
        slots.set(slot, row);
    }
}

/// Whether a run is ending once this entry has come too.
fn ends_with(ending: bool, entry: &Entry) -> bool
    ensures { result ≡ (ending || is_ending (entry.now ∷ [])) }
{
    ending || ends_run(entry)
}

/// Whether an entry ends the run early.
fn ends_run(entry: &Entry) -> bool
    ensures { result ≡ is_ending (entry.now ∷ []) }
{
    match entry {
        Entry::Stop { .. } => true,
        Entry::Late { .. } => true,
        Entry::Short { .. } => true,
        _ => false,
    }
}
