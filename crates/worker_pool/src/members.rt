ghost use Rattle.std.specs.Prelude.{◌≡◌, ℕ, ◌<◌, length, All, slice_index_or};
ghost use Rattle.ledger_run.specs.Tellings.{telling};
ghost use Rattle.worker_pool.specs.Crew.{IsReady};
ghost use Rattle.worker_pool.specs.Seats.{HasWorked, IsWorker};

use crate::worker::work;
use ledger_turns::SharedLedger;
use outside_api::Hand;
use std::alloc::Global;
use std::sync::Wait;
use std::thread;
use std::thread::Threads;
use turn_ledger::{TurnSeat, Turns};

/// A worker: its seat, and its hand.
#[derive(Drop)]
pub struct Member<H: Hand> {
    pub seat: TurnSeat<SharedLedger>,
    pub hand: H,
}

/// Works with each member, each in a thread of its own; where no thread can be made, one after another.
pub fn work_all<R: Threads + Wait + Sync, H: Hand + Send>(
    alloc: Global,
    rt: &R,
    turns: &Turns<SharedLedger>,
    crew: &mut [Member<H>],
    deadline: Option<u64>,
)
    requires some { 0 < length crew.old }
    requires limits { turns.now.object.limits.deadline ≡ deadline }
    requires ready { All (λ m. IsReady turns.now m.seat (H.clock m.hand)) crew.old }
    ensures as_many { length crew.new ≡ length crew.old }
    ensures works { (k : ℕ) (d : Member H) → k < length crew.old
        → IsWorker turns.now (slice_index_or crew.new k d).seat
        × HasWorked turns.now.object deadline (slice_index_or crew.old k d).seat.view
        (slice_index_or crew.new k d).seat.view
        (telling (H.log (slice_index_or crew.old k d).hand)
        (H.heard (slice_index_or crew.old k d).hand) (H.faults (slice_index_or crew.old k d).hand)
        (H.clock (slice_index_or crew.old k d).hand) (H.engine (slice_index_or crew.old k d).hand))
        (telling (H.log (slice_index_or crew.new k d).hand)
        (H.heard (slice_index_or crew.new k d).hand) (H.faults (slice_index_or crew.new k d).hand)
        (H.clock (slice_index_or crew.new k d).hand)
        (H.engine (slice_index_or crew.new k d).hand)) }
{
    let count = crew.len();
    thread::for_each_mut(
        rt,
        crew,
        count,
        &move |_: usize, member: &mut Member<H>|
            requires { (turns.now.object.limits.deadline ≡ deadline)
                × IsReady turns.now member.old.seat (H.clock member.old.hand) }
            ensures { IsWorker turns.entry.now member.new.seat
                × HasWorked turns.entry.now.object deadline member.old.seat.view
                member.new.seat.view
                (telling (H.log member.old.hand) (H.heard member.old.hand)
                (H.faults member.old.hand) (H.clock member.old.hand) (H.engine member.old.hand))
                (telling (H.log member.new.hand) (H.heard member.new.hand)
                (H.faults member.new.hand) (H.clock member.new.hand)
                (H.engine member.new.hand)) }
        {
            work(
                alloc,
                rt,
                turns,
                &mut member.seat,
                &mut member.hand,
                deadline,
            )
        },
    );
}
