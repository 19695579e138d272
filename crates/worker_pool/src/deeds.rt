ghost use Rattle.std.specs.Prelude.{◌≡◌, ◌<◌, ◌^◌};
ghost use Rattle.ledger_turns.specs.Calls.{MayAskBy};
ghost use Rattle.ledger_run.specs.Tellings.{telling};
ghost use Rattle.worker_pool.specs.Seats.{ActsBy, EndsBy, IsGranted, IsHeld, IsWorker, mine_of};

use engine_types::Request;
use ledger_core::{Asked, Permit};
use ledger_turns::{LedgerAnswer, LedgerCall, SharedLedger};
use outside_api::Hand;
use std::alloc::Global;
use std::sync::Wait;
use tree_base::limits::{BEFORE_POLL, WHILE_IDLE};
use turn_ledger::{TurnSeat, Turns};

/// Makes the exchange of a permit, outside any turn, and ends the permit with what came of it.
fn exchange<R: Wait, H: Hand>(
    alloc: Global,
    rt: &R,
    turns: &Turns<SharedLedger>,
    seat: &mut TurnSeat<SharedLedger>,
    hand: &mut H,
    permit: Permit,
    request: Request,
)
    requires worker { IsWorker turns.now seat.old }
    requires held { IsHeld turns.now.object seat.old.view permit }
    requires granted { IsGranted turns.now.object seat.old.view request }
    ensures worker { IsWorker turns.now seat.new }
    ensures ends { EndsBy turns.now.object seat.old.view seat.new.view
        (telling (H.log hand.old) (H.heard hand.old) (H.faults hand.old) (H.clock hand.old)
        (H.engine hand.old))
        (telling (H.log hand.new) (H.heard hand.new) (H.faults hand.new) (H.clock hand.new)
        (H.engine hand.new)) }
{
    let outcome = hand.exchange(alloc, request);
    drop(turns.act(rt, seat, LedgerCall::End(permit, outcome)));
}

/// Asks in a turn, and does what is answered outside any turn. Whether the worker goes on.
pub(crate) fn act<R: Wait, H: Hand>(
    alloc: Global,
    rt: &R,
    turns: &Turns<SharedLedger>,
    seat: &mut TurnSeat<SharedLedger>,
    hand: &mut H,
) -> bool
    requires worker { IsWorker turns.now seat.old }
    requires ready { MayAskBy turns.now.object.limits.workers seat.old.view.number
        (mine_of turns.now.object seat.old.view) }
    requires clock { (H.clock hand.old).paused < 2 ^ 62 }
    ensures worker { IsWorker turns.now seat.new }
    ensures acts { ActsBy turns.now.object seat.old.view seat.new.view
        (telling (H.log hand.old) (H.heard hand.old) (H.faults hand.old) (H.clock hand.old)
        (H.engine hand.old))
        (telling (H.log hand.new) (H.heard hand.new) (H.faults hand.new) (H.clock hand.new)
        (H.engine hand.new)) result }
{
    match turns.act(rt, seat, LedgerCall::Ask) {
        LedgerAnswer::Asked(Asked::Work(permit, request)) => {
            exchange(alloc, rt, turns, seat, hand, permit, request);
            true
        }
        LedgerAnswer::Asked(Asked::Watch(permit, request)) => {
            hand.pause(BEFORE_POLL);
            exchange(alloc, rt, turns, seat, hand, permit, request);
            true
        }
        LedgerAnswer::Asked(Asked::Idle) => {
            hand.pause(WHILE_IDLE);
            true
        }
        LedgerAnswer::Asked(Asked::Leave) => false,
        LedgerAnswer::Asked(Asked::Short) => false,
        LedgerAnswer::Done => unreachable!(),
    }
}
