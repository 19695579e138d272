ghost use Rattle.std.specs.Prelude.{◌≡◌, ◌+◌, ◌<◌, ◌≤◌, ◌^◌, None, IfSome};
ghost use Rattle.std.specs.Option.{ForSome};
ghost use Rattle.engine_types.specs.declared.Declared.{Declared};
ghost use Rattle.ledger_run.specs.Tellings.{telling};
ghost use Rattle.plan_core.specs.Order.{HasNoCycle};
ghost use Rattle.repeated_runs.specs.Attempts.{AreAttempts};
ghost use Rattle.repeated_runs.specs.Conflicts.{conflict_of};
ghost use Rattle.repeated_runs.specs.Dials.{IsDialHere};
ghost use Rattle.repeated_runs.specs.Followings.{Underway, task_by};
ghost use Rattle.repeated_runs.specs.Moments.{Moment, moment};
ghost use Rattle.repeated_runs.specs.Steps.{IsFit, Steps};
ghost use Rattle.run_laws.specs.Orders.{NeedsDependencies};
ghost use Rattle.run_model.specs.Plans.{IsWhole};
ghost use Rattle.run_model.specs.Runs.{Task};
ghost use Rattle.tree_base.specs.Limits.{most_workers};
ghost use Rattle.world_laws.specs.OwnSpecs.{HasOwnSpecs};

use crate::attempt::{Attempt, Attempts};
use crate::following::{Behind, behind_run};
use crate::once::{Left, Once, run_once};
use compose_cli::Place;
use engine_types::{Aim, Declared, RunOptions};
use outside_api::Plug;
use outside_files::Sink;
use std::alloc::Global;
use std::sync::Wait;
use std::thread::Threads;
use tree_base::ReservedList;

/// How many runs a call makes again at most.
const MOST_AGAIN: usize = 4_294_967_295;

/// The runs of a call so far: those that were made again, and the one behind them.
#[derive(Drop)]
pub(crate) struct Course<H> {
    pub earlier: ReservedList<Attempt<H>>,
    pub once: Once<H>,
}

/// What came of a step in a call's runs.
#[derive(Drop)]
pub(crate) enum Step<H> {
    On(Course<H>),
    Over(Attempts<H>),
}

/// Does what an aim asks for of what is declared, within what options bound, with new hands of so many workers at a place, and writes
/// the report to `out`. Where the run ended since a create was refused whose name is used, and its report was written whole, another
/// new hand looks whether what that create would have made is there by now. Where it is, the run is made again, once for each
/// container, network or volume at most: of the same task, and so within the same deadline. Else its refusal stands.
///
/// An Engine goes on with the request of a program that was killed, and lists nothing of it until it is done. A run that begins
/// meanwhile asks for the same and is refused, and a later one finds it. Where the name is another project's, it never comes.
///
/// Each worker works in a thread of its own, and may wait for the turn of another one.
pub fn run_again<R: Threads + Wait + Sync, P: Plug, O: Sink>(
    alloc: Global,
    rt: &R,
    declared: Declared,
    aim: Aim,
    options: RunOptions,
    workers: u32,
    place: &Place,
    plug: &mut P,
    out: &mut O,
) -> Attempts<P::Hand>
where
    P::Hand: Send,
    requires told { ForSome (P.dialled plug.old) (λ n. n < 2 ^ 61) }
    requires some { 1 ≤ workers }
    requires few { workers ≤ most_workers }
    requires whole { IsWhole declared }
    requires acyclic { HasNoCycle declared }
    requires needs { NeedsDependencies declared }
    requires own { HasOwnSpecs declared }
    ensures { AreAttempts
        (λ h. telling (P.Hand.log h) (P.Hand.heard h) (P.Hand.faults h) (P.Hand.clock h)
        (P.Hand.engine h)) (IsDialHere place.now) workers
        (task_by (λ h. telling (P.Hand.log h) (P.Hand.heard h) (P.Hand.faults h)
        (P.Hand.clock h) (P.Hand.engine h)) declared aim options workers
        result.earlier result.last) result
        (moment (P.dials plug.old) (P.dialled plug.old) (P.faults plug.old)
        (O.written out.old) (O.faults out.old))
        (moment (P.dials plug.new) (P.dialled plug.new) (P.faults plug.new)
        (O.written out.new) (O.faults out.new)) }
{
    let mut course = Course {
        earlier: ReservedList::new(alloc),
        once: run_once(
            alloc, rt, declared, aim, options, None, workers, place, plug, out,
        ),
    };
    'runs: while course.earlier.len() < MOST_AGAIN {
        match take_step(alloc, rt, aim, options, workers, place, plug, out, course) {
            Step::On(next) => course = next,
            Step::Over(attempts) => return attempts,
        }
    }
    let Course { earlier, once } = course;
    let Once {
        ended,
        whole: _,
        left,
    } = once;
    drop(left);
    Attempts {
        earlier: earlier.into_list(),
        last: ended,
        looker: None,
    }
}

/// What follows the last of these runs: the run that is made again, or the end.
fn take_step<R: Threads + Wait + Sync, P: Plug, O: Sink>(
    alloc: Global,
    rt: &R,
    aim: Aim,
    options: RunOptions,
    workers: u32,
    place: &Place,
    plug: &mut P,
    out: &mut O,
    course: Course<P::Hand>,
) -> Step<P::Hand>
where
    P::Hand: Send,
    requires told { ForSome (P.dialled plug.old) (λ n. n < 2 ^ 61 + 2 ^ 59) }
    requires some { 1 ≤ workers }
    requires few { workers ≤ most_workers }
    requires lost { course.once.left ≡ None → conflict_of course.once.ended.refusal ≡ None }
    requires fit { IfSome course.once.left (IsFit workers) }
    ensures { (declared : Declared) (task : Task) (first : Moment) → Underway
        (λ h. telling (P.Hand.log h) (P.Hand.heard h) (P.Hand.faults h) (P.Hand.clock h)
        (P.Hand.engine h)) (IsDialHere place.now) workers declared aim task
        course.earlier.items course.once first
        (moment (P.dials plug.old) (P.dialled plug.old) (P.faults plug.old)
        (O.written out.old) (O.faults out.old))
        → Steps (λ h. telling (P.Hand.log h) (P.Hand.heard h) (P.Hand.faults h)
        (P.Hand.clock h) (P.Hand.engine h)) (IsDialHere place.now) workers declared aim task
        course result first
        (moment (P.dials plug.new) (P.dialled plug.new) (P.faults plug.new)
        (O.written out.new) (O.faults out.new)) }
{
    let Course { earlier, once } = course;
    let Once { ended, whole, left } = once;
    let mut earlier = earlier;
    match behind_run(alloc, ended, whole, left, &mut earlier, place, plug) {
        Behind::Again(left) => {
            let Left { declared, limits } = left;
            let once = run_once(
                alloc,
                rt,
                declared,
                aim,
                options,
                Some(limits),
                workers,
                place,
                plug,
                out,
            );
            Step::On(Course { earlier, once })
        }
        Behind::Stands { last, looker } => Step::Over(Attempts {
            earlier: earlier.into_list(),
            last,
            looker,
        }),
    }
}
