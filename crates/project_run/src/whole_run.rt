ghost use Rattle.std.specs.Prelude.{◌≡◌, ◌≤◌, ◌<◌, [], Some, None, false, true, IfOk, IfSome, length};
ghost use Rattle.engine_types.specs.declared.RunFault.{RunFault};
ghost use Rattle.ledger_run.specs.Tellings.{telling};
ghost use Rattle.outside_api.specs.Accounts.{account};
ghost use Rattle.outside_api.specs.Clock.{new_clock};
ghost use Rattle.plan_core.specs.Order.{HasNoCycle};
ghost use Rattle.project_run.specs.Options.{AreFor, clock_begun, limits_by, limits_in};
ghost use Rattle.project_run.specs.Timing.{IsTimed, ReadsFirst};
ghost use Rattle.project_run.specs.Whole.{IfBegun, IsCaused, IsFault, IsReport, Leaves, SparesKept, run_steps, task_of};
ghost use Rattle.project_run.specs.Worlds.{EndsExact, EndsGone, GoesThrough, MakesOnce, RollsFew, SparesAgreeing};
ghost use Rattle.run_laws.specs.Orders.{NeedsDependencies};
ghost use Rattle.run_model.specs.EngineRules.{TellsSteps};
ghost use Rattle.run_model.specs.Logs.{GrowsBy};
ghost use Rattle.run_model.specs.Observation.{is_up};
ghost use Rattle.run_model.specs.Plans.{HasSmallNumbers, IsWhole};
ghost use Rattle.run_model.specs.Runs.{IsLeftByAll, IsRun, run_exchanges, run_fault, run_report};
ghost use Rattle.world_laws.specs.OwnSpecs.{HasOwnSpecs};

use crate::carrying::carry_out;
use crate::ending::ended;
use crate::journals::{FirstJournal, first_journal};
use crate::opening::{Opening, open};
use crate::options::{bounded, limits_for, unread_limits};
use crate::ran::{Carried, Handed, Ran};
use engine_types::{Aim, Declared, RunFault, RunLimits, RunOptions};
use outside_api::Hand;
use std::alloc::Global;
use tree_base::{List, Memory, Text};

/// Carries out for a declared set what an aim asks for, with one hand, which is worker 0: observes what the Engine has,
/// plans, and goes through the plan as the run's ledger grants it, within what the options bound. A service that says so is
/// replaced a few slots at a time. Slots need only slots of services that their own service depends on, and neither slots nor
/// services need one another in a circle. The hand is new.
///
/// The journal is empty only where there was no room for its first entry; then nothing was sent, and the fault
/// is Memory. Each exchange has its cause in itself: a reply is the one that was heard, where the hand tells it, and where a
/// response was lost, the count of faults rose in that exchange, or what was heard in it is broken in the way that the journal
/// says. A deadline is counted from the first reading of the hand's clock, which is made before the observation; the hand
/// looks whether it is asked to stop, reads its clock and pauses as the journal says. An Engine that the hand tells
/// went through the run, and changed by itself in the hand's pauses alone. Where a run of `up` went well and each slot's
/// spec is made for it, the Engine holds exactly what is declared, and where one of `down` went well, all that is declared
/// is gone, whatever the Engine held before. Over a run of `up` and any runs before it, each whole or cut off anywhere, each
/// container is made at most once, and a run spares the containers that agree. At no moment of a run of `up` do more slots of
/// a service lack a live container by the run's doing than the service replaces at a time. Where there is no memory to say the
/// fault or the report, the fault is Memory in its place, and the report is empty.
pub fn run_project<H: Hand>(
    alloc: Global,
    hand: &mut H,
    declared: Declared,
    aim: Aim,
    options: RunOptions,
) -> Ran
    requires whole { IsWhole declared }
    requires small { HasSmallNumbers declared }
    requires acyclic { HasNoCycle declared }
    requires needs { NeedsDependencies declared }
    requires unused { H.clock hand.old ≡ new_clock }
    ensures empty { result.journal ≡ [] → (result.fault ≡ Some RunFault.Memory)
        × (H.log hand.new ≡ H.log hand.old) × (H.clock hand.new ≡ H.clock hand.old) }
    ensures run { IfBegun result.journal (IsRun
        (task_of declared aim (limits_by options (H.clock hand.new))) result.journal) }
    ensures left { IfBegun result.journal (IsLeftByAll
        (task_of declared aim (limits_by options (H.clock hand.new))) result.journal) }
    ensures log { IfBegun result.journal (GrowsBy (run_exchanges
        (task_of declared aim (limits_by options (H.clock hand.new))) result.journal 0)
        (H.log hand.old) (H.log hand.new)) }
    ensures told { IfBegun result.journal (TellsSteps (run_steps
        (task_of declared aim (limits_by options (H.clock hand.new))) result.journal 0)
        (H.engine hand.old) (H.engine hand.new)) }
    ensures fault { IfBegun result.journal (IsFault (run_fault
        (task_of declared aim (limits_by options (H.clock hand.new))) result.journal)
        result.fault) }
    ensures report { IsReport (run_report
        (task_of declared aim (limits_by options (H.clock hand.new))) result.journal)
        result.fault result.report }
    ensures kept { is_up aim.purpose ≡ true → SparesKept
        (task_of declared aim (limits_by options (H.clock hand.new))) result.journal }
    ensures world { IfBegun result.journal (GoesThrough
        (task_of declared aim (limits_by options (H.clock hand.new))) result.journal
        (H.engine hand.old) (H.engine hand.new)) }
    ensures exact { result.fault ≡ None → is_up aim.purpose ≡ true → HasOwnSpecs declared
        → EndsExact
        (task_of declared aim (limits_by options (H.clock hand.new))) result.journal }
    ensures once { IfBegun result.journal (is_up aim.purpose ≡ true → HasOwnSpecs declared
        → MakesOnce
        (task_of declared aim (limits_by options (H.clock hand.new))) result.journal) }
    ensures agreeing { IfBegun result.journal (is_up aim.purpose ≡ true → HasOwnSpecs declared
        → SparesAgreeing
        (task_of declared aim (limits_by options (H.clock hand.new))) result.journal) }
    ensures rolls { IfBegun result.journal (is_up aim.purpose ≡ true → RollsFew
        (task_of declared aim (limits_by options (H.clock hand.new))) result.journal) }
    ensures gone { result.fault ≡ None → is_up aim.purpose ≡ false → EndsGone
        (task_of declared aim (limits_by options (H.clock hand.new))) result.journal }
    ensures cause { IsCaused
        (task_of declared aim (limits_by options (H.clock hand.new))) result.journal 0
        (account (H.log hand.old) (H.heard hand.old) (H.faults hand.old))
        (account (H.log hand.new) (H.heard hand.new) (H.faults hand.new)) }
    ensures timed { IfBegun result.journal (IsTimed
        (task_of declared aim (limits_by options (H.clock hand.new))) result.journal 0
        (H.clock hand.old) (H.clock hand.new)) }
    ensures read_first { IfBegun result.journal (ReadsFirst
        (limits_by options (H.clock hand.new)).deadline
        (length (H.log hand.old)) (H.clock hand.new)) }
{
    match first_journal(alloc) {
        Ok(journal) => {
            let Handed {
                ran,
                declared: back,
                limits: _,
            } = run(alloc, hand, declared, aim, options, None, journal);
            drop(back);
            ran
        }
        Err(Memory) => unopened(alloc, declared),
    }
}

/// The same within limits that an earlier run of the same had, the deadline among them, where they are given; else with those that
/// options set. The limits are handed back, and so is the declared set, but where memory was wanted.
pub fn run_given<H: Hand>(
    alloc: Global,
    hand: &mut H,
    declared: Declared,
    aim: Aim,
    options: RunOptions,
    given: Option<RunLimits>,
) -> Handed
    requires whole { IsWhole declared }
    requires small { HasSmallNumbers declared }
    requires acyclic { HasNoCycle declared }
    requires needs { NeedsDependencies declared }
    requires unused { H.clock hand.old ≡ new_clock }
    requires given { AreFor 1 given }
    ensures empty { result.ran.journal ≡ []
        → (result.ran.fault ≡ Some RunFault.Memory) × (hand.new ≡ hand.old) }
    ensures limits { result.limits ≡ limits_in 1 options given (H.clock hand.new).first }
    ensures leaves { IfBegun result.ran.journal (Leaves
        (task_of declared aim (limits_in 1 options given (H.clock hand.new).first))
        result.ran.journal
        (telling (H.log hand.old) (H.heard hand.old) (H.faults hand.old) (H.clock hand.old)
        (H.engine hand.old))
        (telling (H.log hand.new) (H.heard hand.new) (H.faults hand.new) (H.clock hand.new)
        (H.engine hand.new))) }
    ensures fault { IfBegun result.ran.journal (IsFault (run_fault
        (task_of declared aim (limits_in 1 options given (H.clock hand.new).first))
        result.ran.journal) result.ran.fault) }
    ensures report { IsReport (run_report
        (task_of declared aim (limits_in 1 options given (H.clock hand.new).first))
        result.ran.journal) result.ran.fault result.ran.report }
    ensures back { IfSome result.declared (λ same. same ≡ declared) }
    ensures lost { result.declared ≡ None → result.ran.fault ≡ Some RunFault.Memory }
{
    match first_journal(alloc) {
        Ok(journal) => run(alloc, hand, declared, aim, options, given, journal),
        Err(Memory) => Handed {
            ran: unopened(alloc, declared),
            declared: None,
            limits: unread_limits(1, options, given),
        },
    }
}

/// A run that had no room for its journal.
fn unopened(alloc: Global, declared: Declared) -> Ran
    ensures journal { result.journal ≡ [] }
    ensures fault { result.fault ≡ Some RunFault.Memory }
    ensures report { result.report ≡ [] }
{
    drop(declared);
    Ran {
        journal: List::new(alloc),
        report: Text::new(alloc),
        fault: Some(RunFault::Memory),
    }
}

/// The run, with an empty journal that has room for an observation.
fn run<H: Hand>(
    alloc: Global,
    hand: &mut H,
    declared: Declared,
    aim: Aim,
    options: RunOptions,
    given: Option<RunLimits>,
    journal: FirstJournal,
) -> Handed
    requires whole { IsWhole declared }
    requires small { HasSmallNumbers declared }
    requires acyclic { HasNoCycle declared }
    requires needs { NeedsDependencies declared }
    requires unused { H.clock hand.old ≡ new_clock }
    requires given { AreFor 1 given }
    requires empty { journal.items ≡ [] }
    requires room { 1 ≤ journal.spare }
    ensures limits { result.limits ≡ limits_in 1 options given (H.clock hand.new).first }
    ensures leaves { Leaves
        (task_of declared aim (limits_in 1 options given (H.clock hand.new).first))
        result.ran.journal
        (telling (H.log hand.old) (H.heard hand.old) (H.faults hand.old) (H.clock hand.old)
        (H.engine hand.old))
        (telling (H.log hand.new) (H.heard hand.new) (H.faults hand.new) (H.clock hand.new)
        (H.engine hand.new)) }
    ensures fault { IsFault (run_fault
        (task_of declared aim (limits_in 1 options given (H.clock hand.new).first))
        result.ran.journal) result.ran.fault }
    ensures report { IsReport (run_report
        (task_of declared aim (limits_in 1 options given (H.clock hand.new).first))
        result.ran.journal) result.ran.fault result.ran.report }
    ensures back { IfSome result.declared (λ same. same ≡ declared) }
    ensures lost { result.declared ≡ None → result.ran.fault ≡ Some RunFault.Memory }
{
    let limits = limits_for(hand, 1, options, given);
    let Carried {
        ran,
        declared: back,
    } = run_within(alloc, hand, declared, aim, limits, journal);
    Handed {
        ran,
        declared: back,
        limits,
    }
}

/// The same within limits, with a hand that has read its clock once where there is a deadline, and else never.
fn run_within<H: Hand>(
    alloc: Global,
    hand: &mut H,
    declared: Declared,
    aim: Aim,
    limits: RunLimits,
    journal: FirstJournal,
) -> Carried
    requires whole { IsWhole declared }
    requires small { HasSmallNumbers declared }
    requires acyclic { HasNoCycle declared }
    requires needs { NeedsDependencies declared }
    requires one { limits.workers ≡ 1 }
    requires read { H.clock hand.old
        ≡ clock_begun limits.deadline (length (H.log hand.old)) (H.clock hand.old).first }
    requires empty { journal.items ≡ [] }
    requires room { 1 ≤ journal.spare }
    ensures leaves { Leaves (task_of declared aim limits) result.ran.journal
        (telling (H.log hand.old) (H.heard hand.old) (H.faults hand.old) new_clock
        (H.engine hand.old))
        (telling (H.log hand.new) (H.heard hand.new) (H.faults hand.new) (H.clock hand.new)
        (H.engine hand.new)) }
    ensures first { 0 < (H.clock hand.old).readings
        → (H.clock hand.new).first ≡ (H.clock hand.old).first }
    ensures fault { IsFault (run_fault (task_of declared aim limits) result.ran.journal)
        result.ran.fault }
    ensures report { IsReport (run_report (task_of declared aim limits) result.ran.journal)
        result.ran.fault result.ran.report }
    ensures back { IfSome result.declared (λ same. same ≡ declared) }
    ensures lost { result.declared ≡ None → result.ran.fault ≡ Some RunFault.Memory }
{
    let within = bounded(aim, limits);
    match open(alloc, hand, &declared, aim) {
        Opening::Planned { observed, plan } => {
            carry_out(alloc, hand, declared, observed, plan, within, journal)
        }
        Opening::Ended(observed) => {
            let ran = ended(alloc, &declared, observed, journal);
            Carried {
                ran,
                declared: Some(declared),
            }
        }
    }
}
