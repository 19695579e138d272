ghost use Rattle.std.specs.Prelude.{◌≡◌, ◌⊎◌, ◌<◌, ◌+◌, ℕ, List, [], Some, IfOk, false, length, slice_get};
ghost use Rattle.engine_types.specs.declared.Declared.{Declared};
ghost use Rattle.engine_types.specs.declared.Listed.{Listed};
ghost use Rattle.outside_api.specs.Standings.{Standing, standing};
ghost use Rattle.wait_run.specs.Ends.{refused_by};
ghost use Rattle.wait_run.specs.Goals.{is_settled_now};
ghost use Rattle.wait_run.specs.Taking.{TakesBy, wants_memory};
ghost use Rattle.wait_run.specs.Ways.{Steps, Way, looks_of};

use crate::asking::ask;
use crate::goals::Goals;
use crate::refusal::WaitRefusal;
use engine_types::{Exchange, Outcome, Request};
use health_watch::report_of;
use outside_api::Hand;
use std::alloc::Global;
use tree_base::Memory;

/// Looks at each slot's container once, in order.
pub(crate) fn look_at_all<H: Hand>(
    alloc: Global,
    hand: &mut H,
    goals: &mut Goals,
) -> Result<(), WaitRefusal>
    ensures { (declared : Declared) (rows : List Listed) (from : Standing)
        → Way declared rows [] 0 from
        (standing (H.log hand.old) (H.engine hand.old) (H.heard hand.old)
        (H.faults hand.old) (H.clock hand.old)) goals.old
        → Steps declared rows [] (length declared.slots) from goals.new result
        (standing (H.log hand.new) (H.engine hand.new) (H.heard hand.new)
        (H.faults hand.new) (H.clock hand.new)) }
{
    let count = goals.rows.len();
    for s in 0..count {
        let at = number_of(s)?;
        look(alloc, hand, goals, at)?;
    }
    Ok(())
}

/// A place as a number of 32 bits. No memory holds a list with a place past them.
fn number_of(place: usize) -> Result<u32, Memory>
    ensures { IfOk result (λ number. number ≡ place) }
{
    match u32::try_from(place) {
        Ok(number) => Ok(number),
        Err(_) => Err(Memory),
    }
}

/// Looks at the container of the slot at a place, which is looked at next.
pub(crate) fn look<H: Hand>(
    alloc: Global,
    hand: &mut H,
    goals: &mut Goals,
    s: u32,
) -> Result<(), WaitRefusal>
    ensures { (declared : Declared) (rows : List Listed) (body : List ℕ) (n : ℕ)
        (from : Standing)
        → Way declared rows body n from
        (standing (H.log hand.old) (H.engine hand.old) (H.heard hand.old)
        (H.faults hand.old) (H.clock hand.old)) goals.old
        → slice_get (looks_of declared rows body) n ≡ Some s
        → (n < length declared.slots) ⊎ (is_settled_now goals.old ≡ false)
        → Steps declared rows body (n + 1) from goals.new result
        (standing (H.log hand.new) (H.engine hand.new) (H.heard hand.new)
        (H.faults hand.new) (H.clock hand.new)) }
{
    let Some(container) = goals.containers.get(s as usize) else {
        return Ok(());
    };
    let id = container.copy(alloc)?;
    let exchange = ask(alloc, hand, Request::Inspect { id })?;
    match take_report(goals, s, &exchange.outcome) {
        Ok(taken) => {
            if taken {
                // By a call, since the drop of each variant of an exchange would be proved at this place.
                drop(exchange);
                Ok(())
            } else {
                Err(refused_by(exchange))
            }
        }
        Err(Memory) => {
            drop(exchange);
            Err(WaitRefusal::Memory)
        }
    }
}

/// Takes the report that an outcome gives, and says whether it gives one.
fn take_report(goals: &mut Goals, s: u32, outcome: &Outcome) -> Result<bool, Memory>
    ensures { TakesBy s outcome.now result goals.old goals.new }
{
    match report_of(outcome) {
        Some(report) => {
            goals.report(s, report)?;
            Ok(true)
        }
        None => Ok(false),
    }
}

/// The refusal of an exchange with another answer than was asked for. No memory.
pub(crate) fn refused_by(exchange: Exchange) -> WaitRefusal
    ensures { result ≡ refused_by exchange.request exchange.outcome }
{
    let is_short = wants_memory(&exchange.outcome);
    if is_short {
        drop(exchange);
        WaitRefusal::Memory
    } else {
        WaitRefusal::Request {
            request: exchange.request,
            outcome: exchange.outcome,
        }
    }
}

/// Whether an exchange wanted memory. No memory.
fn wants_memory(outcome: &Outcome) -> bool
    ensures { result ≡ wants_memory outcome.now }
{
    match outcome {
        Outcome::Memory => true,
        _ => false,
    }
}
