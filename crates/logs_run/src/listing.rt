ghost use Rattle.std.specs.Prelude.{◌≡◌, Some, None, IfErr, IfOk};
ghost use Rattle.outside_api.specs.Accounts.{account};
ghost use Rattle.logs_run.specs.Logged.{IsListingRefusal, Lists, rows_told};

use engine_types::{Declared, Listed, LogsRefusal, Outcome, Reply, Request};
use outside_api::Hand;
use std::alloc::Global;
use tree_base::{List, Memory, TryCopy};

/// Lists the containers of a project. Where the request can't be copied for a refusal, memory was wanted.
pub(crate) fn list<H: Hand>(
    alloc: Global,
    hand: &mut H,
    declared: &Declared,
) -> Result<List<Listed>, LogsRefusal>
    ensures lists { Lists declared.now result
        (account (H.log hand.old) (H.heard hand.old) (H.faults hand.old))
        (account (H.log hand.new) (H.heard hand.new) (H.faults hand.new)) }
    ensures clock { H.clock hand.new ≡ H.clock hand.old }
{
    let Ok(project) = declared.project.copy(alloc) else {
        return Err(LogsRefusal::Memory);
    };
    let outcome = hand.exchange(alloc, Request::ListContainers { project });
    match rows_in(outcome) {
        Ok(rows) => Ok(rows),
        Err(other) => Err(refusal_of_listing(alloc, declared, other)),
    }
}

/// The rows of a listing that was answered well, or the outcome as it is. No memory.
fn rows_in(outcome: Outcome) -> Result<List<Listed>, Outcome>
    ensures rows { IfOk result (λ rows. rows_told outcome ≡ Some rows) }
    ensures other { IfErr result (λ other. (other ≡ outcome) × (rows_told outcome ≡ None)) }
{
    match outcome {
        Outcome::Answered(Reply::Containers(rows)) => Ok(rows),
        other => Err(other),
    }
}

/// What a listing that wasn't answered well is refused with.
fn refusal_of_listing(alloc: Global, declared: &Declared, outcome: Outcome) -> LogsRefusal
    ensures { IsListingRefusal declared.now outcome result }
{
    if let Outcome::Memory = outcome {
        return LogsRefusal::Memory;
    }
    match declared.project.copy(alloc) {
        Ok(project) => LogsRefusal::Request {
            request: Request::ListContainers { project },
            outcome,
        },
        Err(Memory) => {
            drop(outcome);
            LogsRefusal::Memory
        }
    }
}
