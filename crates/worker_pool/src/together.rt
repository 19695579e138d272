ghost use Rattle.std.specs.Prelude.{◌≡◌, ◌<◌, ◌≤◌, All, IfErr, IfOk, [], ◌+◌, length, vec_capacity, vec_len};
ghost use Rattle.engine_types.specs.declared.Aim.{Aim};
ghost use Rattle.run_model.specs.Ending.{EveryWorkerLeft, IsRunOver};
ghost use Rattle.run_model.specs.Plans.{IsOrderly, IsWhole};
ghost use Rattle.journal_laws.specs.Courses.{entries, setup_of};
ghost use Rattle.journal_laws.specs.Laws.{IsLegalRun};
ghost use Rattle.ledger_core.specs.Beginning.{run_of};
ghost use Rattle.ledger_run.specs.Tellings.{telling};
ghost use Rattle.ledger_run.specs.Timing.{HasRoom};
ghost use Rattle.ledger_run.specs.Works.{GoesOn, HasOnlySeen};
ghost use Rattle.ledger_turns.specs.Calls.{IsOpen};
ghost use Rattle.turn_ledger.specs.Seats.{IsFirst, IsOf};
ghost use Rattle.worker_pool.specs.Crew.{ComesTo, EachPair, HasDone};

use crate::crew::{end_all, seat_all};
use crate::members::{Member, work_all};
use ledger_core::Ledger;
use ledger_turns::SharedLedger;
use outside_api::Hand;
use std::alloc::Global;
use std::sync::Wait;
use std::thread::Threads;
use tree_base::List;
use turn_ledger::{TurnSeat, Turns};

/// A run's ledger, and the hands of its workers: the hand at place w is worker w's.
#[derive(Drop)]
pub struct Together<H: Hand> {
    pub ledger: Ledger,
    pub hands: List<H>,
}

/// Works on a run with these hands, one for each of its 1 to 16 workers, from the observation on until each has left. Each worker
/// has a thread of its own; where no thread can be made, they work one after another. The deadline is that of the run's limits, in
/// milliseconds of the hands' clocks. Where there is no memory to begin, the ledger and the hands come back as they were.
pub fn work_together<R: Threads + Wait + Sync, H: Hand + Send>(
    alloc: Global,
    rt: &R,
    ledger: Ledger,
    hands: List<H>,
    deadline: Option<u64>,
) -> Result<Together<H>, Together<H>>
    requires begun { HasOnlySeen ledger.journal }
    requires open_run { IsOpen ledger }
    requires some { 0 < length hands }
    requires workers { ledger.limits.workers ≡ length hands }
    requires limits { ledger.limits.deadline ≡ deadline }
    requires clocks { All (λ h. HasRoom (H.clock h)) hands }
    ensures same { IfOk result (λ t. t.ledger
        ≡ run_of ledger.declared ledger.plan ledger.limits t.ledger.journal) }
    ensures more { IfOk result (λ t. GoesOn ledger.journal t.ledger.journal) }
    ensures legal { IfOk result (λ t. (aim : Aim) → IsLegalRun aim ledger
        → IsLegalRun aim t.ledger) }
    ensures left { IfOk result (λ t. EveryWorkerLeft (setup_of t.ledger) (entries t.ledger)) }
    ensures over { IfOk result (λ t. (aim : Aim) → IsWhole ledger.declared
        → IsOrderly ledger.declared ledger.plan.actions → IsLegalRun aim ledger
        → IsRunOver (setup_of t.ledger) (entries t.ledger)) }
    ensures hands { IfOk result (λ t. EachPair (λ w before after.
        HasDone w deadline ledger t.ledger
        (telling (H.log before) (H.heard before) (H.faults before) (H.clock before)
        (H.engine before))
        (telling (H.log after) (H.heard after) (H.faults after) (H.clock after) (H.engine after)))
        0 hands t.hands) }
    ensures back { IfErr result (λ t. (t.ledger ≡ ledger) × (t.hands ≡ hands)) }
{
    let mut crew = Vec::new(alloc);
    let Ok(()) = crew.reserve(hands.len()) else {
        return Err(Together { ledger, hands });
    };
    let seats = hands.len() as u32;
    match Turns::new(alloc, SharedLedger::new(alloc, ledger), seats) {
        Ok((turns, first)) => Ok(work_in_turns(alloc, rt, turns, first, crew, hands, deadline)),
        Err(shared) => Err(Together {
            ledger: shared.into_ledger(),
            hands,
        }),
    }
}

/// Seats the hands, works with all, and ends the turns.
fn work_in_turns<R: Threads + Wait + Sync, H: Hand + Send>(
    alloc: Global,
    rt: &R,
    turns: Turns<SharedLedger>,
    first: TurnSeat<SharedLedger>,
    mut crew: Vec<Member<H>>,
    hands: List<H>,
    deadline: Option<u64>,
) -> Together<H>
    requires begun { HasOnlySeen turns.object.journal }
    requires some { 0 < length hands }
    requires workers { turns.object.limits.workers ≡ length hands }
    requires limits { turns.object.limits.deadline ≡ deadline }
    requires own { IsOf turns first }
    requires first { IsFirst turns.object (length hands) first.view }
    requires seats { turns.seats ≡ length hands }
    requires empty { crew.items ≡ [] }
    requires room { vec_len crew + length hands ≤ vec_capacity crew }
    requires clocks { All (λ h. HasRoom (H.clock h)) hands }
    ensures open_run { IsOpen result.ledger }
    ensures come { ComesTo turns.object result.ledger }
    ensures left { EveryWorkerLeft (setup_of result.ledger) (entries result.ledger) }
    ensures hands { EachPair (λ w before after. HasDone w deadline turns.object result.ledger
        (telling (H.log before) (H.heard before) (H.faults before) (H.clock before)
        (H.engine before))
        (telling (H.log after) (H.heard after) (H.faults after) (H.clock after) (H.engine after)))
        0 hands result.hands }
{
    let mut hands = hands.into_vec();
    seat_all(&turns, first, &mut hands, &mut crew);
    work_all(alloc, rt, &turns, crew.as_mut_slice(), deadline);
    let ledger = end_all(turns, crew, &mut hands).into_ledger();
    Together {
        ledger,
        hands: List::from_vec(hands),
    }
}
