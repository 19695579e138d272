ghost use Rattle.std.specs.Prelude.{◌≡◌};
ghost use Rattle.std.specs.Option.{option_copied};
ghost use Rattle.outside_api.specs.Standings.{standing};
ghost use Rattle.wait_run.specs.Looks.{rows_by};
ghost use Rattle.wait_run.specs.Taking.{FindsIn};
ghost use Rattle.wait_run.specs.Ways.{ListsBy};

use crate::asking::ask;
use crate::goals::Goals;
use crate::looking::refused_by;
use crate::refusal::WaitRefusal;
use crate::slots::goals_of;
use engine_types::{Declared, Listed, Outcome, Reply, Request};
use outside_api::Hand;
use std::alloc::Global;
use tree_base::List;

/// Lists the project's containers, and finds each slot's own.
pub(crate) fn list<H: Hand>(
    alloc: Global,
    declared: &Declared,
    hand: &mut H,
) -> Result<Goals, WaitRefusal>
    ensures { ListsBy declared.now result
        (standing (H.log hand.old) (H.engine hand.old) (H.heard hand.old)
        (H.faults hand.old) (H.clock hand.old))
        (standing (H.log hand.new) (H.engine hand.new) (H.heard hand.new)
        (H.faults hand.new) (H.clock hand.new)) }
{
    let project = declared.project.copy(alloc)?;
    let exchange = ask(alloc, hand, Request::ListContainers { project })?;
    match find_in(alloc, declared, &exchange.outcome) {
        Some(found) => {
            // By a call, since the drop of each variant of an exchange would be proved at this place.
            drop(exchange);
            found
        }
        None => Err(refused_by(exchange)),
    }
}

/// The goals of all slots by the rows that an outcome lists, if it lists any.
fn find_in(
    alloc: Global,
    declared: &Declared,
    outcome: &Outcome,
) -> Option<Result<Goals, WaitRefusal>>
    ensures { FindsIn declared.now outcome.now result }
{
    match rows_by(outcome) {
        Some(rows) => Some(goals_of(alloc, declared, rows.as_slice())),
        None => None,
    }
}

/// The rows that a listing was answered with, if any. No memory.
fn rows_by(outcome: &Outcome) -> Option<&List<Listed>>
    ensures { option_copied result ≡ rows_by outcome.now }
{
    match outcome {
        Outcome::Answered(reply) => match reply {
            Reply::Containers(rows) => Some(rows),
            _ => None,
        },
        _ => None,
    }
}
