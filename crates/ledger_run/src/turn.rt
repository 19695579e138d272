ghost use Rattle.std.specs.Prelude.{◌≡◌, ◌<◌, ◌^◌};
ghost use Rattle.run_model.specs.Journals.{holding};
ghost use Rattle.journal_laws.specs.Courses.{MayAsk, MayStop, entries};
ghost use Rattle.ledger_core.specs.Answers.{held_by};
ghost use Rattle.ledger_run.specs.Tellings.{telling};
ghost use Rattle.ledger_run.specs.Turns.{Acts, Ends, Heeds, MayUse, Polls, Turns};

use engine_types::Request;
use ledger_core::{Asked, Ledger, Permit, ask, end};
use outside_api::Hand;
use std::alloc::Global;
use tree_base::limits::{BEFORE_POLL, WHILE_IDLE};

/// Whose loop this is.
const WORKER: u32 = 0;

/// One turn of the worker, and whether it goes on.
pub(crate) fn turn<H: Hand>(
    alloc: Global,
    ledger: &mut Ledger,
    hand: &mut H,
    deadline: Option<u64>,
) -> bool
    requires may { MayStop ledger.old 0 }
    requires limits { ledger.old.limits.deadline ≡ deadline }
    requires clock { MayUse (H.clock hand.old) }
    ensures { Turns deadline ledger.old
        (telling (H.log hand.old) (H.heard hand.old) (H.faults hand.old) (H.clock hand.old)
        (H.engine hand.old)) ledger.new
        (telling (H.log hand.new) (H.heard hand.new) (H.faults hand.new) (H.clock hand.new)
        (H.engine hand.new)) result }
{
    heed(ledger, hand, deadline);
    act(alloc, ledger, hand)
}

/// Looks whether the worker is to stop, and else whether the deadline has come, and tells the ledger. No memory.
fn heed<H: Hand>(ledger: &mut Ledger, hand: &mut H, deadline: Option<u64>)
    requires may { MayStop ledger.old 0 }
    requires limits { ledger.old.limits.deadline ≡ deadline }
    requires clock { MayUse (H.clock hand.old) }
    ensures { Heeds deadline ledger.old
        (telling (H.log hand.old) (H.heard hand.old) (H.faults hand.old) (H.clock hand.old)
        (H.engine hand.old)) ledger.new
        (telling (H.log hand.new) (H.heard hand.new) (H.faults hand.new) (H.clock hand.new)
        (H.engine hand.new)) }
{
    let stops = hand.asked();
    if stops {
        ledger.stop(WORKER);
    } else if let Some(deadline) = deadline {
        let reading = hand.now();
        let is_late = deadline <= reading;
        if is_late {
            ledger.late(WORKER, reading);
        }
    }
}

/// Asks, and does what is answered.
fn act<H: Hand>(alloc: Global, ledger: &mut Ledger, hand: &mut H) -> bool
    requires ready { MayAsk ledger.old 0 }
    requires clock { (H.clock hand.old).paused < 2 ^ 62 }
    ensures { Acts ledger.old
        (telling (H.log hand.old) (H.heard hand.old) (H.faults hand.old) (H.clock hand.old)
        (H.engine hand.old)) ledger.new
        (telling (H.log hand.new) (H.heard hand.new) (H.faults hand.new) (H.clock hand.new)
        (H.engine hand.new)) result }
{
    match ask(ledger, alloc, WORKER) {
        Asked::Work(permit, request) => {
            exchange(alloc, ledger, hand, permit, request);
            true
        }
        Asked::Watch(permit, request) => {
            watch(alloc, ledger, hand, permit, request);
            true
        }
        Asked::Idle => {
            hand.pause(WHILE_IDLE);
            true
        }
        Asked::Leave => false,
        Asked::Short => false,
    }
}

/// Pauses, and then makes the exchange of a permit to poll.
fn watch<H: Hand>(
    alloc: Global,
    ledger: &mut Ledger,
    hand: &mut H,
    permit: Permit,
    inspect: Request,
)
    requires held { holding (entries ledger.old) permit.worker ≡ held_by permit.grant }
    requires clock { (H.clock hand.old).paused < 2 ^ 62 }
    ensures { Polls inspect permit.worker ledger.old
        (telling (H.log hand.old) (H.heard hand.old) (H.faults hand.old) (H.clock hand.old)
        (H.engine hand.old)) ledger.new
        (telling (H.log hand.new) (H.heard hand.new) (H.faults hand.new) (H.clock hand.new)
        (H.engine hand.new)) }
{
    hand.pause(BEFORE_POLL);
    exchange(alloc, ledger, hand, permit, inspect);
}

/// Makes the exchange of a permit, and ends the permit with what came of it.
fn exchange<H: Hand>(
    alloc: Global,
    ledger: &mut Ledger,
    hand: &mut H,
    permit: Permit,
    request: Request,
)
    requires { holding (entries ledger.old) permit.worker ≡ held_by permit.grant }
    ensures { Ends request permit.worker ledger.old
        (telling (H.log hand.old) (H.heard hand.old) (H.faults hand.old) (H.clock hand.old)
        (H.engine hand.old)) ledger.new
        (telling (H.log hand.new) (H.heard hand.new) (H.faults hand.new) (H.clock hand.new)
        (H.engine hand.new)) }
{
    let outcome = hand.exchange(alloc, request);
    end(ledger, permit, outcome);
}
