ghost use Rattle.std.specs.Prelude.{◌≡◌, ◌+◌, ◌<◌, ◌^◌, [], Option, Some, length, vec_len, vec_capacity};
ghost use Rattle.std.specs.Option.{ForSome};
ghost use Rattle.compose_cli.specs.Dialling.{Dials, IsDialAt};
ghost use Rattle.compose_cli.specs.Ends.{CountsHands, SendsNothing};
ghost use Rattle.compose_cli.specs.Runs.{IsRefusalOf, IsUnbegun, RanAlone, Reports, first_reading, refusal_after};
ghost use Rattle.engine_types.specs.declared.Engine.{Engine};
ghost use Rattle.ledger_run.specs.Tellings.{telling};
ghost use Rattle.outside_api.specs.Clock.{new_clock};
ghost use Rattle.outside_api.specs.Hands.{BeginsWith, HeardNothing};
ghost use Rattle.outside_files.specs.Counts.{Rose};
ghost use Rattle.plan_core.specs.Order.{HasNoCycle};
ghost use Rattle.project_run.specs.Whole.{IfBegun, task_of};
ghost use Rattle.refusals.specs.Origins.{IsOfLoading, IsOfRun};
ghost use Rattle.refusals.specs.Statuses.{status_of};
ghost use Rattle.refusals.specs.declared.Part.{Part};
ghost use Rattle.refusals.specs.declared.Refusal.{Refusal};
ghost use Rattle.run_laws.specs.Orders.{NeedsDependencies};
ghost use Rattle.run_model.specs.EngineRules.{Among};
ghost use Rattle.run_model.specs.Plans.{IsWhole};
ghost use Rattle.run_model.specs.Runs.{limits_of};
ghost use Rattle.refusals.specs.Saying.{IsSaid, SaysRefusal};
ghost use Rattle.outside_files.specs.Writing.{Wrote};
ghost use Rattle.world_laws.specs.OwnSpecs.{HasOwnSpecs};

use crate::ended::Ended;
use crate::reaching::Place;
use engine_types::{Aim, Declared, RunFault, RunOptions};
use outside_api::{DialAnswer, Hand, Plug};
use outside_files::{Sink, write_all};
use project_run::{Ran, run_project};
use refusals::{Part, Refusal, refusal_of, refusal_status, say, say_if_any, status_of};
use std::alloc::Global;
use tree_base::{List, Memory, Text};

/// Dials the hand that speaks with the Engine of a place, and does with it what an aim asks for of what is declared, within what
/// options bound.
pub(crate) fn run_declared<P: Plug, O: Sink, G: Sink>(
    alloc: Global,
    declared: Declared,
    aim: Aim,
    options: RunOptions,
    place: Result<Place, Memory>,
    plug: &mut P,
    out: &mut O,
    err: &mut G,
) -> Ended<P::Hand>
    requires told { ForSome (P.dialled plug.old) (λ n. n < 2 ^ 61) }
    requires whole { IsWhole declared }
    requires acyclic { HasNoCycle declared }
    requires needs { NeedsDependencies declared }
    requires own { HasOwnSpecs declared }
    ensures origin { IsOfLoading result.refusal → ⊥ }
    ensures dials { Dials (IsDialAt place) 1 (P.dials plug.old) (P.dials plug.new)
        (length result.hands) result.refusal }
    ensures dial { result.refusal ≡ Some (Refusal.Outside Part.Plug)
        → SendsNothing result × Rose (P.faults plug.old) (P.faults plug.new) }
    ensures dialled { CountsHands (P.dialled plug.old) (P.dialled plug.new) (length result.hands) }
    ensures unbegun { result.journal ≡ [] → IsUnbegun result.refusal }
    ensures quiet_unbegun { result.journal ≡ [] → O.written out.new ≡ O.written out.old }
    ensures unsent { result.journal ≡ [] → (hand : P.Hand) → Among result.hands hand
        → P.Hand.log hand ≡ [] }
    ensures ran { IfBegun result.journal (RanAlone (λ h. telling (P.Hand.log h) (P.Hand.heard h)
        (P.Hand.faults h) (P.Hand.clock h) (P.Hand.engine h)) (P.engine plug.old)
        (task_of declared aim (limits_of 1 options
        (first_reading (λ h. P.Hand.clock h) result.hands))) result
        (O.written out.old) (O.written out.new) (O.faults out.old) (O.faults out.new)) }
    ensures status { result.status ≡ status_of result.refusal }
    ensures line { SaysRefusal result.refusal (G.written err.old) (G.written err.new)
        (G.faults err.old) (G.faults err.new) }
    ensures quiet { result.refusal ≡ Some (Refusal.Outside Part.Plug)
        → O.written out.new ≡ O.written out.old }
{
    let Ok(place) = place else {
        return refused(alloc, Refusal::Memory, err);
    };
    let Ok(hands) = Vec::with_capacity(alloc, 1) else {
        return refused(alloc, Refusal::Memory, err);
    };
    match plug.dial(alloc, &place.target, place.stop_file.as_ref(), 0) {
        DialAnswer::Dialled(hand) => {
            run_with(alloc, declared, aim, options, hand, hands, out, err)
        }
        DialAnswer::Failed => refused(alloc, Refusal::Outside(Part::Plug), err),
        DialAnswer::Memory => refused(alloc, Refusal::Memory, err),
    }
}

/// Ends a call that made no hand: writes the line of the refusal.
pub fn refused<H, G: Sink>(alloc: Global, refusal: Refusal, err: &mut G) -> Ended<H>
    ensures nothing { SendsNothing result }
    ensures refusal { IsSaid refusal result.refusal }
    ensures status { result.status ≡ status_of result.refusal }
    ensures line { SaysRefusal result.refusal (G.written err.old) (G.written err.new)
        (G.faults err.old) (G.faults err.new) }
{
    let refusal = say(alloc, refusal, err);
    Ended {
        status: refusal_status(&refusal),
        journal: List::new(alloc),
        hands: List::new(alloc),
        refusal: Some(refusal),
    }
}

/// Does what an aim asks for with a new hand, writes the report, and hands the hand back.
fn run_with<H: Hand, O: Sink, G: Sink>(
    alloc: Global,
    declared: Declared,
    aim: Aim,
    options: RunOptions,
    mut hand: H,
    mut hands: Vec<H>,
    out: &mut O,
    err: &mut G,
) -> Ended<H>
    requires empty { hands.items ≡ [] }
    requires room { vec_len hands < vec_capacity hands }
    requires whole { IsWhole declared }
    requires acyclic { HasNoCycle declared }
    requires needs { NeedsDependencies declared }
    requires own { HasOwnSpecs declared }
    requires unused { H.log hand ≡ [] }
    requires unread { H.clock hand ≡ new_clock }
    requires unheard { HeardNothing (H.heard hand) }
    requires faultless { H.faults hand ≡ 0 }
    ensures hands { length result.hands ≡ 1 }
    ensures origin { IsOfRun result.refusal }
    ensures unbegun { result.journal ≡ [] → IsUnbegun result.refusal }
    ensures quiet_unbegun { result.journal ≡ [] → O.written out.new ≡ O.written out.old }
    ensures unsent { result.journal ≡ [] → (hand : H)
        → Among result.hands hand → H.log hand ≡ [] }
    ensures ran { IfBegun result.journal ((began : Option Engine)
        → BeginsWith began (H.engine hand) → RanAlone (λ h. telling (H.log h) (H.heard h)
        (H.faults h) (H.clock h) (H.engine h)) began
        (task_of declared aim (limits_of 1 options
        (first_reading (λ h. H.clock h) result.hands))) result
        (O.written out.old) (O.written out.new) (O.faults out.old) (O.faults out.new)) }
    ensures status { result.status ≡ status_of result.refusal }
    ensures line { SaysRefusal result.refusal (G.written err.old) (G.written err.new)
        (G.faults err.old) (G.faults err.new) }
{
    let Ran {
        journal,
        report,
        fault,
    } = run_project(alloc, &mut hand, declared, aim, options);
    hands.push(hand).unwrap();
    let refusal = say_if_any(alloc, write_report(fault, &report, out), err);
    Ended {
        status: status_of(&refusal),
        journal,
        hands: List::from_vec(hands),
        refusal,
    }
}

/// Writes the report; where that fails and the run went well, the refusal is a fault of the output. So a report that is cut off
/// never ends a call well.
pub fn write_report<O: Sink>(fault: Option<RunFault>, report: &Text, out: &mut O) -> Option<Refusal>
    ensures refused { IsRefusalOf fault (O.faults out.old) (O.faults out.new) result }
    ensures origin { IsOfRun result }
    ensures written { Reports report.now result (O.written out.old) (O.written out.new)
        (O.faults out.old) (O.faults out.new) }
{
    let whole = write_text(report, out);
    refusal_after(fault, whole)
}

/// Writes a text; false where the output failed, after a prefix of it. No memory.
pub fn write_text<O: Sink>(text: &Text, out: &mut O) -> bool
    ensures { Wrote result text.now (O.written out.old) (O.written out.new)
        (O.faults out.old) (O.faults out.new) }
{
    write_all(out, text.as_str().as_bytes())
}

/// What a call is refused with whose run has this fault, if any, and whose report was written whole, or wasn't. No memory.
pub fn refusal_after(fault: Option<RunFault>, whole: bool) -> Option<Refusal>
    ensures { result ≡ refusal_after fault whole }
{
    match fault {
        Some(fault) => Some(refusal_of(fault)),
        None if whole => None,
        None => Some(Refusal::Outside(Part::Out)),
    }
}
