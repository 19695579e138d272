ghost use Rattle.ledger_turns.specs.Calls.{IsOpen, Made, MayCall, opening};
ghost use Rattle.worker_laws.specs.Own.{own_of};

use engine_types::Outcome;
use ledger_core::{Asked, Ledger, Permit, ask, end};
use std::alloc::Global;

/// What a worker calls in its turn.
#[derive(Drop)]
pub enum LedgerCall {
    /// It asks for something to do.
    Ask,
    /// It ends a permit of its own with what came of it.
    End(Permit, Outcome),
    /// It is to stop.
    Stop,
    /// It read this on its clock, in milliseconds, and the deadline has come.
    Late(u64),
}

/// What a worker is answered in its turn.
#[derive(Drop)]
pub enum LedgerAnswer {
    /// What it is to do: the answer to an ask.
    Asked(Asked),
    /// Nothing: its call was entered.
    Done,
}

/// Makes a worker's call on the ledger.
pub(crate) fn make(ledger: &mut Ledger, alloc: Global, who: u32, call: LedgerCall) -> LedgerAnswer
    requires shared { IsOpen ledger.old }
    requires may { MayCall (opening ledger.old) who (own_of who ledger.old.journal) call }
    ensures { Made ledger.old who call result ledger.new }
{
    match call {
        LedgerCall::Ask => LedgerAnswer::Asked(ask(ledger, alloc, who)),
        LedgerCall::End(permit, outcome) => {
            end(ledger, permit, outcome);
            LedgerAnswer::Done
        }
        LedgerCall::Stop => {
            ledger.stop(who);
            LedgerAnswer::Done
        }
        LedgerCall::Late(reading) => {
            ledger.late(who, reading);
            LedgerAnswer::Done
        }
    }
}
