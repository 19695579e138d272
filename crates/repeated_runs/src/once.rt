ghost use Rattle.std.specs.Prelude.{◌≡◌, ◌<◌, ◌≤◌, ◌^◌, ◌+◌, [], None, Some, IfSome, false, length, true};
ghost use Rattle.std.specs.Option.{ForSome};
ghost use Rattle.compose_cli.specs.Runs.{first_reading};
ghost use Rattle.ledger_run.specs.Tellings.{telling};
ghost use Rattle.outside_files.specs.Counts.{Rose};
ghost use Rattle.plan_core.specs.Order.{HasNoCycle};
ghost use Rattle.project_run.specs.Options.{AreFor, limits_in};
ghost use Rattle.project_run.specs.Whole.{task_of};
ghost use Rattle.refusals.specs.Statuses.{status_of};
ghost use Rattle.repeated_runs.specs.Attempts.{IsOneRun};
ghost use Rattle.repeated_runs.specs.Conflicts.{conflict_of};
ghost use Rattle.repeated_runs.specs.Dials.{IsDialHere, refusal_of};
ghost use Rattle.repeated_runs.specs.Hands.{AreNew};
ghost use Rattle.repeated_runs.specs.Moments.{moment};
ghost use Rattle.repeated_runs.specs.Onces.{IsLeft, IsRunWith, WritesWhole};
ghost use Rattle.run_laws.specs.Orders.{NeedsDependencies};
ghost use Rattle.run_model.specs.Plans.{IsWhole};
ghost use Rattle.tree_base.specs.Limits.{most_workers};
ghost use Rattle.world_laws.specs.OwnSpecs.{HasOwnSpecs};

use crate::dialling::{DialFault, dial_all};
use crate::together::run_new;
use compose_cli::{Ended, Place, refusal_after, write_text};
use engine_types::{Aim, Declared, RunLimits, RunOptions};
use outside_api::{Hand, Plug};
use outside_files::Sink;
use parallel_run::HandedTogether;
use project_run::Ran;
use refusals::{Part, Refusal, refusal_status, status_of};
use std::alloc::Global;
use std::sync::Wait;
use std::thread::Threads;
use tree_base::List;

/// What the same run can be made of once more: the declared set, and the limits that it had.
#[derive(Drop)]
pub(crate) struct Left {
    pub declared: Declared,
    pub limits: RunLimits,
}

/// One run of a call, whose refusal isn't said yet; whether its report, if any, was written whole; and what is left to make it again.
#[derive(Drop)]
pub(crate) struct Once<H> {
    pub ended: Ended<H>,
    pub whole: bool,
    pub left: Option<Left>,
}

/// Dials the hands of so many workers, all of which speak with the Engine of a place, and does with them what an aim asks for of
/// what is declared, within limits that are given or that options set. Room for all hands is taken before the first dial.
pub(crate) fn run_once<R: Threads + Wait + Sync, P: Plug, O: Sink>(
    alloc: Global,
    rt: &R,
    declared: Declared,
    aim: Aim,
    options: RunOptions,
    given: Option<RunLimits>,
    workers: u32,
    place: &Place,
    plug: &mut P,
    out: &mut O,
) -> Once<P::Hand>
where
    P::Hand: Send,
    requires told { ForSome (P.dialled plug.old) (λ n. n < 2 ^ 61 + 2 ^ 60) }
    requires some { 1 ≤ workers }
    requires few { workers ≤ most_workers }
    requires given { AreFor workers given }
    requires whole { IsWhole declared }
    requires acyclic { HasNoCycle declared }
    requires needs { NeedsDependencies declared }
    requires own { HasOwnSpecs declared }
    ensures run { IsOneRun
        (λ h. telling (P.Hand.log h) (P.Hand.heard h) (P.Hand.faults h) (P.Hand.clock h)
        (P.Hand.engine h)) (IsDialHere place.now) workers
        (task_of declared aim (limits_in workers options given
        (first_reading (λ h. P.Hand.clock h) result.ended.hands))) result.ended
        (moment (P.dials plug.old) (P.dialled plug.old) (P.faults plug.old)
        (O.written out.old) (O.faults out.old))
        (moment (P.dials plug.new) (P.dialled plug.new) (P.faults plug.new)
        (O.written out.new) (O.faults out.new)) }
    ensures reported { result.whole ≡ true → WritesWhole
        (task_of declared aim (limits_in workers options given
        (first_reading (λ h. P.Hand.clock h) result.ended.hands))) result.ended
        (O.written out.old) (O.written out.new) }
    ensures broken { result.whole ≡ false → Rose (O.faults out.old) (O.faults out.new) }
    ensures left { IfSome result.left (IsLeft declared (limits_in workers options given
        (first_reading (λ h. P.Hand.clock h) result.ended.hands))) }
    ensures lost { result.left ≡ None → conflict_of result.ended.refusal ≡ None }
{
    let Ok(mut hands) = Vec::with_capacity(alloc, workers as usize) else {
        drop(declared);
        return unrun(alloc, Refusal::Memory, List::new(alloc));
    };
    match dial_all(alloc, place, workers, plug, &mut hands) {
        Ok(()) => run_with(
            alloc,
            rt,
            declared,
            aim,
            options,
            given,
            List::from_vec(hands),
            out,
        ),
        Err(fault) => {
            drop(declared);
            unrun(alloc, refusal_of(fault), List::from_vec(hands))
        }
    }
}

/// What comes of a run that has no hand for some worker: the hands that were made are handed back.
fn unrun<H>(alloc: Global, refusal: Refusal, hands: List<H>) -> Once<H>
    ensures journal { result.ended.journal ≡ [] }
    ensures hands { result.ended.hands ≡ hands }
    ensures refusal { result.ended.refusal ≡ Some refusal }
    ensures status { result.ended.status ≡ status_of result.ended.refusal }
    ensures whole { result.whole ≡ true }
    ensures left { result.left ≡ None }
{
    Once {
        ended: Ended {
            status: refusal_status(&refusal),
            journal: List::new(alloc),
            hands,
            refusal: Some(refusal),
        },
        whole: true,
        left: None,
    }
}

/// What a run is refused with that has no hand for some worker. No memory.
fn refusal_of(fault: DialFault) -> Refusal
    ensures { result ≡ refusal_of fault }
{
    match fault {
        DialFault::Plug => Refusal::Outside(Part::Plug),
        DialFault::Memory => Refusal::Memory,
    }
}

/// Does what an aim asks for with new hands, each that of a worker, writes the report, and hands the hands back.
fn run_with<R: Threads + Wait + Sync, H: Hand + Send, O: Sink>(
    alloc: Global,
    rt: &R,
    declared: Declared,
    aim: Aim,
    options: RunOptions,
    given: Option<RunLimits>,
    hands: List<H>,
    out: &mut O,
) -> Once<H>
    requires some { 1 ≤ length hands }
    requires few { length hands ≤ most_workers }
    requires given { AreFor (length hands) given }
    requires unused { AreNew (λ h. telling (H.log h) (H.heard h) (H.faults h) (H.clock h)
        (H.engine h)) hands }
    requires whole { IsWhole declared }
    requires acyclic { HasNoCycle declared }
    requires needs { NeedsDependencies declared }
    requires own { HasOwnSpecs declared }
    ensures hands { length result.ended.hands ≡ length hands }
    ensures run { IsRunWith
        (λ h. telling (H.log h) (H.heard h) (H.faults h) (H.clock h) (H.engine h))
        (task_of declared aim (limits_in (length hands) options given
        (first_reading (λ h. H.clock h) result.ended.hands))) result.ended
        (O.written out.old) (O.written out.new) (O.faults out.old) (O.faults out.new) }
    ensures reported { result.whole ≡ true → WritesWhole
        (task_of declared aim (limits_in (length hands) options given
        (first_reading (λ h. H.clock h) result.ended.hands))) result.ended
        (O.written out.old) (O.written out.new) }
    ensures broken { result.whole ≡ false → Rose (O.faults out.old) (O.faults out.new) }
    ensures left { IfSome result.left (IsLeft declared (limits_in (length hands) options given
        (first_reading (λ h. H.clock h) result.ended.hands))) }
    ensures lost { result.left ≡ None → conflict_of result.ended.refusal ≡ None }
{
    let HandedTogether {
        ran,
        hands,
        declared: back,
        limits,
    } = run_new(alloc, rt, hands, declared, aim, options, given);
    let Ran {
        journal,
        report,
        fault,
    } = ran;
    let whole = write_text(&report, out);
    let refusal = refusal_after(fault, whole);
    Once {
        ended: Ended {
            status: status_of(&refusal),
            journal,
            hands,
            refusal,
        },
        whole,
        left: left_of(back, limits),
    }
}

fn left_of(declared: Option<Declared>, limits: RunLimits) -> Option<Left>
    ensures none { declared ≡ None → result ≡ None }
    ensures some { IfSome declared (λ same. result ≡ Some (record {
      declared = same;
      limits = limits;
    })) }
{
    match declared {
        Some(declared) => Some(Left { declared, limits }),
        None => None,
    }
}
