ghost use Rattle.std.specs.Prelude.{◌≡◌, ◌<◌, Some, length};
ghost use Rattle.tree_base.specs.Limits.{most_entries};
ghost use Rattle.engine_types.specs.declared.Entry.{Entry as Entered};
ghost use Rattle.run_model.specs.Journals.{Work, holding};
ghost use Rattle.run_model.specs.Legal.{Look, Pause, Take};
ghost use Rattle.run_model.specs.Requests.{action_request, poll_request};
ghost use Rattle.journal_laws.specs.Courses.{MayAsk, entries, grown, setup_of};
ghost use Rattle.journal_laws.specs.Laws.{decided};
ghost use Rattle.ledger_core.specs.Answers.{Answers, AsksFor, answer_entry, held_by};

use crate::asked::Asked;
use crate::ledger::Ledger;
use crate::permit::{Grant, Permit};
use crate::step::Step;
use engine_types::{Entry, LateWhy, Outcome, Request};
use std::alloc::Global;
use tree_base::Memory;

/// Answers a worker that asks for work, and appends the one entry of the answer. The memory of a grant and of its end is taken
/// first: where there is none, the worker falls short, and has left.
pub fn ask(ledger: &mut Ledger, alloc: Global, worker: u32) -> Asked
    requires { MayAsk ledger.old worker }
    ensures decided { Answers worker (decided ledger.old worker) result }
    ensures asks { AsksFor (setup_of ledger.old) (entries ledger.old) (decided ledger.old worker)
        result }
    ensures entered { ledger.new ≡ grown ledger.old
        (answer_entry worker (decided ledger.old worker) result) }
{
    match ledger.decide(worker) {
        Step::Full => {
            let why = LateWhy::Entries;
            ledger.leave(worker, Entry::Late { worker, why });
            Asked::Leave
        }
        Step::Go => {
            ledger.leave(worker, Entry::Leave { worker });
            Asked::Leave
        }
        Step::Take(action) => take(ledger, alloc, worker, action),
        Step::Look(slot) => look(ledger, alloc, worker, slot),
        Step::Pause => pause(ledger, worker),
    }
}

/// Grants the action that comes next, with its request.
fn take(ledger: &mut Ledger, alloc: Global, worker: u32, action: u32) -> Asked
    requires ready { MayAsk ledger.old worker }
    requires decided { decided ledger.old worker ≡ Take action }
    requires room { length (entries ledger.old) < most_entries }
    ensures answers { Answers worker (Take action) result }
    ensures asks { AsksFor (setup_of ledger.old) (entries ledger.old) (Take action) result }
    ensures entered { ledger.new ≡ grown ledger.old (answer_entry worker (Take action) result) }
{
    match ledger.action_request(alloc, action) {
        Ok(Some(request)) => claim(ledger, worker, action, request),
        Ok(None) => {
            fall_short(ledger, worker);
            Asked::Short
        }
        Err(Memory) => {
            fall_short(ledger, worker);
            Asked::Short
        }
    }
}

fn claim(ledger: &mut Ledger, worker: u32, action: u32, request: Request) -> Asked
    requires ready { MayAsk ledger.old worker }
    requires decided { decided ledger.old worker ≡ Take action }
    requires room { length (entries ledger.old) < most_entries }
    requires made { action_request (setup_of ledger.old) (entries ledger.old) action
        ≡ Some request }
    ensures answers { Answers worker (Take action) result }
    ensures asks { AsksFor (setup_of ledger.old) (entries ledger.old) (Take action) result }
    ensures entered { ledger.new ≡ grown ledger.old (answer_entry worker (Take action) result) }
{
    match ledger.claim(worker, action) {
        Ok(()) => {
            let grant = Grant::Action(action);
            Asked::Work(Permit { worker, grant }, request)
        }
        Err(Memory) => {
            drop(request);
            fall_short(ledger, worker);
            Asked::Short
        }
    }
}

/// Grants a poll of the slot that is polled next, with its request.
fn look(ledger: &mut Ledger, alloc: Global, worker: u32, slot: u32) -> Asked
    requires ready { MayAsk ledger.old worker }
    requires decided { decided ledger.old worker ≡ Look slot }
    requires room { length (entries ledger.old) < most_entries }
    ensures answers { Answers worker (Look slot) result }
    ensures asks { AsksFor (setup_of ledger.old) (entries ledger.old) (Look slot) result }
    ensures entered { ledger.new ≡ grown ledger.old (answer_entry worker (Look slot) result) }
{
    match ledger.poll_request(alloc, slot) {
        Ok(Some(request)) => poll(ledger, worker, slot, request),
        Ok(None) => {
            fall_short(ledger, worker);
            Asked::Short
        }
        Err(Memory) => {
            fall_short(ledger, worker);
            Asked::Short
        }
    }
}

fn poll(ledger: &mut Ledger, worker: u32, slot: u32, request: Request) -> Asked
    requires ready { MayAsk ledger.old worker }
    requires decided { decided ledger.old worker ≡ Look slot }
    requires room { length (entries ledger.old) < most_entries }
    requires made { poll_request (setup_of ledger.old) (entries ledger.old) slot ≡ Some request }
    ensures answers { Answers worker (Look slot) result }
    ensures asks { AsksFor (setup_of ledger.old) (entries ledger.old) (Look slot) result }
    ensures entered { ledger.new ≡ grown ledger.old (answer_entry worker (Look slot) result) }
{
    match ledger.look(worker, slot) {
        Ok(()) => {
            let grant = Grant::Slot(slot);
            Asked::Watch(Permit { worker, grant }, request)
        }
        Err(Memory) => {
            drop(request);
            fall_short(ledger, worker);
            Asked::Short
        }
    }
}

/// There is nothing to do yet.
fn pause(ledger: &mut Ledger, worker: u32) -> Asked
    requires ready { MayAsk ledger.old worker }
    requires decided { decided ledger.old worker ≡ Pause }
    requires room { length (entries ledger.old) < most_entries }
    ensures answers { Answers worker Pause result }
    ensures entered { ledger.new ≡ grown ledger.old (answer_entry worker Pause result) }
{
    match ledger.pause(worker) {
        Ok(()) => Asked::Idle,
        Err(Memory) => {
            fall_short(ledger, worker);
            Asked::Short
        }
    }
}

/// Memory was wanted: the worker leaves. No memory.
fn fall_short(ledger: &mut Ledger, worker: u32)
    requires ready { MayAsk ledger.old worker }
    requires room { length (entries ledger.old) < most_entries }
    ensures { ledger.new ≡ grown ledger.old (Entered.Short worker) }
{
    ledger.leave(worker, Entry::Short { worker });
}

/// Ends what a permit was for. No memory.
pub fn end(ledger: &mut Ledger, permit: Permit, outcome: Outcome)
    requires { holding (entries ledger.old) permit.worker ≡ held_by permit.grant }
    ensures { ledger.new ≡ grown ledger.old (Entered.Ended permit.worker outcome) }
{
    let worker = permit.worker;
    match permit.grant {
        Grant::Action(action) => end_action(ledger, worker, action, outcome),
        Grant::Slot(slot) => ledger.end_poll(worker, slot, outcome),
    }
}

fn end_action(ledger: &mut Ledger, worker: u32, action: u32, outcome: Outcome)
    requires { holding (entries ledger.old) worker ≡ Work action }
    ensures { ledger.new ≡ grown ledger.old (Entered.Ended worker outcome) }
{
    if ledger.ends_well(action, &outcome) {
        ledger.end_well(worker, action, outcome);
    } else {
        ledger.end_badly(worker, action, outcome);
    }
}
