ghost use Rattle.std.specs.Prelude.{◌≡◌, ◌<◌, ◌≤◌, [], All, Some, None, false, true, IfOk, IfSome, length};
ghost use Rattle.engine_types.specs.declared.RunFault.{RunFault as Fault};
ghost use Rattle.ledger_run.specs.Tellings.{telling};
ghost use Rattle.outside_api.specs.Accounts.{account};
ghost use Rattle.outside_api.specs.Clock.{new_clock};
ghost use Rattle.parallel_run.specs.Together.{LeavesTogether, first_reading, limits_by};
ghost use Rattle.plan_core.specs.Order.{HasNoCycle};
ghost use Rattle.project_run.specs.Options.{AreFor, limits_in};
ghost use Rattle.project_run.specs.Timing.{IsTimed, ReadsFirst};
ghost use Rattle.project_run.specs.Whole.{IfBegun, IsCaused, IsFault, IsReport, SparesKept, task_of};
ghost use Rattle.project_run.specs.Worlds.{EndsExact, EndsGone, MakesOnce, RollsFew, SparesAgreeing};
ghost use Rattle.run_laws.specs.Orders.{NeedsDependencies};
ghost use Rattle.run_model.specs.Logs.{GrowsBy};
ghost use Rattle.run_model.specs.Observation.{is_up};
ghost use Rattle.run_model.specs.Plans.{HasSmallNumbers, IsWhole};
ghost use Rattle.run_model.specs.Runs.{IsLeftByAll, IsRun, run_exchanges, run_fault, run_report};
ghost use Rattle.tree_base.specs.Limits.{most_workers};
ghost use Rattle.worker_pool.specs.Crew.{EachPair};
ghost use Rattle.world_laws.specs.OwnSpecs.{HasOwnSpecs};

use crate::carrying::carry_out;
use crate::opening::{Begun, open_with};
use crate::ran_together::{CarriedTogether, HandedTogether, RanTogether};
use engine_types::{Aim, Declared, RunFault, RunLimits, RunOptions};
use outside_api::Hand;
use project_run::{FirstJournal, Opening, Ran, bounded, ended, first_journal, unread_limits};
use std::alloc::Global;
use std::sync::Wait;
use std::thread::Threads;
use tree_base::{List, Memory, Text};

/// Carries out for a declared set what an aim asks for, with 1 to 16 hands: the hand at place w is worker w's, and the hands come
/// back in their order. Hand 0 observes what the Engine has; then all workers go through the plan as the run's ledger grants it,
/// each in a thread of its own, within what the options bound; where no thread can be made, they work one after another. A service
/// that says so is replaced a few slots at a time. Slots need only slots of services that their own service depends on, and
/// neither slots nor services need one another in a circle. The hands are new. A worker may wait for the turn of another one.
///
/// The journal is empty only where there was no room for its first entry; then nothing was sent, and the fault is Memory. Where
/// there is no memory to begin or for the workers' seats, the observation has ended with that, and nothing more was sent.
/// The log of each hand grew by its worker's exchanges of the journal, hand 0's by the observation's first, and each exchange has
/// its cause in itself, by what this hand tells alone. A deadline is counted from the first reading of hand 0's clock, which
/// is made before the observation; each hand looks whether it is asked to stop, reads its clock and pauses as the journal says of
/// its worker. Where a run of `up` went well and each slot's spec is made for it, the Engine holds exactly what is declared in
/// every world of the journal, and where one of `down` went well, all that is declared is gone, whatever the Engine held
/// before. Over a run of `up` and any runs before it, each whole or cut off anywhere, each container is made at most once, and a
/// run spares the containers that agree. At no moment of a run of `up` do more slots of a service lack a live container by the
/// run's doing than the service replaces at a time. What an Engine that the hands tell went through isn't said here: what they
/// did is one history only where their Engine is one. Where there is no memory to say the fault or the report, the fault is
/// Memory in its place, and the report is empty.
pub fn run_parallel<R: Threads + Wait + Sync, H: Hand + Send>(
    alloc: Global,
    rt: &R,
    hands: List<H>,
    declared: Declared,
    aim: Aim,
    options: RunOptions,
) -> RanTogether<H>
    requires some { 0 < length hands }
    requires few { length hands ≤ most_workers }
    requires whole { IsWhole declared }
    requires small { HasSmallNumbers declared }
    requires acyclic { HasNoCycle declared }
    requires needs { NeedsDependencies declared }
    requires unused { All (λ h. H.clock h ≡ new_clock) hands }
    ensures empty { result.ran.journal ≡ [] → (result.ran.fault ≡ Some Fault.Memory)
        × (result.hands ≡ hands) }
    ensures run { IfBegun result.ran.journal (IsRun (task_of declared aim
        (limits_by (length hands) options (first_reading (λ h. H.clock h) result.hands)))
        result.ran.journal) }
    ensures left { IfBegun result.ran.journal (IsLeftByAll (task_of declared aim
        (limits_by (length hands) options (first_reading (λ h. H.clock h) result.hands)))
        result.ran.journal) }
    ensures log { IfBegun result.ran.journal (EachPair (λ w before after.
        GrowsBy (run_exchanges (task_of declared aim
        (limits_by (length hands) options (first_reading (λ h. H.clock h) result.hands)))
        result.ran.journal w) (H.log before) (H.log after)) 0 hands result.hands) }
    ensures cause { EachPair (λ w before after. IsCaused (task_of declared aim
        (limits_by (length hands) options (first_reading (λ h. H.clock h) result.hands)))
        result.ran.journal w (account (H.log before) (H.heard before) (H.faults before))
        (account (H.log after) (H.heard after) (H.faults after))) 0 hands result.hands }
    ensures timed { IfBegun result.ran.journal (EachPair (λ w before after.
        IsTimed (task_of declared aim
        (limits_by (length hands) options (first_reading (λ h. H.clock h) result.hands)))
        result.ran.journal w (H.clock before) (H.clock after)) 0 hands result.hands) }
    ensures read_first { IfBegun result.ran.journal (EachPair (λ w before after. w ≡ 0
        → ReadsFirst (limits_by (length hands) options
        (first_reading (λ h. H.clock h) result.hands)).deadline
        (length (H.log before)) (H.clock after)) 0 hands result.hands) }
    ensures fault { IfBegun result.ran.journal (IsFault (run_fault (task_of declared aim
        (limits_by (length hands) options (first_reading (λ h. H.clock h) result.hands)))
        result.ran.journal) result.ran.fault) }
    ensures report { IsReport (run_report (task_of declared aim
        (limits_by (length hands) options (first_reading (λ h. H.clock h) result.hands)))
        result.ran.journal) result.ran.fault result.ran.report }
    ensures kept { is_up aim.purpose ≡ true → SparesKept (task_of declared aim
        (limits_by (length hands) options (first_reading (λ h. H.clock h) result.hands)))
        result.ran.journal }
    ensures exact { result.ran.fault ≡ None → is_up aim.purpose ≡ true → HasOwnSpecs declared
        → EndsExact (task_of declared aim
        (limits_by (length hands) options (first_reading (λ h. H.clock h) result.hands)))
        result.ran.journal }
    ensures once { IfBegun result.ran.journal (is_up aim.purpose ≡ true → HasOwnSpecs declared
        → MakesOnce (task_of declared aim
        (limits_by (length hands) options (first_reading (λ h. H.clock h) result.hands)))
        result.ran.journal) }
    ensures agreeing { IfBegun result.ran.journal (is_up aim.purpose ≡ true
        → HasOwnSpecs declared → SparesAgreeing (task_of declared aim
        (limits_by (length hands) options (first_reading (λ h. H.clock h) result.hands)))
        result.ran.journal) }
    ensures rolls { IfBegun result.ran.journal (is_up aim.purpose ≡ true
        → RollsFew (task_of declared aim
        (limits_by (length hands) options (first_reading (λ h. H.clock h) result.hands)))
        result.ran.journal) }
    ensures gone { result.ran.fault ≡ None → is_up aim.purpose ≡ false
        → EndsGone (task_of declared aim
        (limits_by (length hands) options (first_reading (λ h. H.clock h) result.hands)))
        result.ran.journal }
{
    match first_journal(alloc) {
        Ok(journal) => {
            let HandedTogether {
                ran,
                hands,
                declared: back,
                limits: _,
            } = run(alloc, rt, hands, declared, aim, options, None, journal);
            drop(back);
            RanTogether { ran, hands }
        }
        Err(Memory) => RanTogether {
            ran: unopened(alloc, declared),
            hands,
        },
    }
}

/// The same within limits that an earlier run of the same had, the deadline among them, where they are given; else with those that
/// options set. The limits are handed back, and so is the declared set, but where memory was wanted.
pub fn run_parallel_given<R: Threads + Wait + Sync, H: Hand + Send>(
    alloc: Global,
    rt: &R,
    hands: List<H>,
    declared: Declared,
    aim: Aim,
    options: RunOptions,
    given: Option<RunLimits>,
) -> HandedTogether<H>
    requires some { 0 < length hands }
    requires few { length hands ≤ most_workers }
    requires whole { IsWhole declared }
    requires small { HasSmallNumbers declared }
    requires acyclic { HasNoCycle declared }
    requires needs { NeedsDependencies declared }
    requires unused { All (λ h. H.clock h ≡ new_clock) hands }
    requires given { AreFor (length hands) given }
    ensures empty { result.ran.journal ≡ [] → (result.ran.fault ≡ Some Fault.Memory)
        × (result.hands ≡ hands) }
    ensures limits { result.limits ≡ limits_in (length hands) options given
        (first_reading (λ h. H.clock h) result.hands) }
    ensures leaves { IfBegun result.ran.journal (LeavesTogether
        (λ h. telling (H.log h) (H.heard h) (H.faults h) (H.clock h) (H.engine h))
        (task_of declared aim (limits_in (length hands) options given
        (first_reading (λ h. H.clock h) result.hands))) result.ran.journal hands result.hands) }
    ensures fault { IfBegun result.ran.journal (IsFault (run_fault (task_of declared aim
        (limits_in (length hands) options given
        (first_reading (λ h. H.clock h) result.hands))) result.ran.journal) result.ran.fault) }
    ensures report { IsReport (run_report (task_of declared aim
        (limits_in (length hands) options given
        (first_reading (λ h. H.clock h) result.hands))) result.ran.journal)
        result.ran.fault result.ran.report }
    ensures back { IfSome result.declared (λ same. same ≡ declared) }
    ensures lost { result.declared ≡ None → result.ran.fault ≡ Some Fault.Memory }
{
    match first_journal(alloc) {
        Ok(journal) => run(alloc, rt, hands, declared, aim, options, given, journal),
        Err(Memory) => {
            let (hands, limits) = unread(hands, options, given);
            HandedTogether {
                ran: unopened(alloc, declared),
                hands,
                declared: None,
                limits,
            }
        }
    }
}

/// The limits of a run of as many workers as there are new hands, none of which ever read its clock. No memory.
fn unread<H: Hand>(
    hands: List<H>,
    options: RunOptions,
    given: Option<RunLimits>,
) -> (List<H>, RunLimits)
    requires some { 0 < length hands }
    requires few { length hands ≤ most_workers }
    requires unused { All (λ h. H.clock h ≡ new_clock) hands }
    ensures hands { result.0 ≡ hands }
    ensures limits { result.1 ≡ limits_in (length hands) options given
        (first_reading (λ h. H.clock h) result.0) }
{
    let workers = hands.len() as u32;
    (hands, unread_limits(workers, options, given))
}

/// A run that had no room for its journal.
fn unopened(alloc: Global, declared: Declared) -> Ran
    ensures journal { result.journal ≡ [] }
    ensures fault { result.fault ≡ Some Fault.Memory }
    ensures report { result.report ≡ [] }
{
    drop(declared);
    Ran {
        journal: List::new(alloc),
        report: Text::new(alloc),
        fault: Some(RunFault::Memory),
    }
}

/// The run, with an empty journal that has room for an observation.
fn run<R: Threads + Wait + Sync, H: Hand + Send>(
    alloc: Global,
    rt: &R,
    hands: List<H>,
    declared: Declared,
    aim: Aim,
    options: RunOptions,
    given: Option<RunLimits>,
    journal: FirstJournal,
) -> HandedTogether<H>
    requires some { 0 < length hands }
    requires few { length hands ≤ most_workers }
    requires whole { IsWhole declared }
    requires small { HasSmallNumbers declared }
    requires acyclic { HasNoCycle declared }
    requires needs { NeedsDependencies declared }
    requires unused { All (λ h. H.clock h ≡ new_clock) hands }
    requires given { AreFor (length hands) given }
    requires empty { journal.items ≡ [] }
    requires room { 1 ≤ journal.spare }
    ensures limits { result.limits ≡ limits_in (length hands) options given
        (first_reading (λ h. H.clock h) result.hands) }
    ensures leaves { LeavesTogether (λ h. telling (H.log h) (H.heard h) (H.faults h) (H.clock h)
        (H.engine h)) (task_of declared aim (limits_in (length hands) options given
        (first_reading (λ h. H.clock h) result.hands))) result.ran.journal hands result.hands }
    ensures fault { IsFault (run_fault (task_of declared aim
        (limits_in (length hands) options given
        (first_reading (λ h. H.clock h) result.hands))) result.ran.journal) result.ran.fault }
    ensures report { IsReport (run_report (task_of declared aim
        (limits_in (length hands) options given
        (first_reading (λ h. H.clock h) result.hands))) result.ran.journal)
        result.ran.fault result.ran.report }
    ensures back { IfSome result.declared (λ same. same ≡ declared) }
    ensures lost { result.declared ≡ None → result.ran.fault ≡ Some Fault.Memory }
{
    let Begun {
        hands,
        bounds,
        opening,
    } = open_with(alloc, hands, &declared, aim, options, given);
    let limits = bounded(aim, bounds);
    match opening {
        Opening::Planned { observed, plan } => {
            let CarriedTogether {
                ran,
                hands,
                declared: back,
            } = carry_out(alloc, rt, hands, declared, observed, plan, limits, journal);
            HandedTogether {
                ran,
                hands,
                declared: back,
                limits: bounds,
            }
        }
        Opening::Ended(observed) => {
            let ran = ended(alloc, &declared, observed, journal);
            HandedTogether {
                ran,
                hands,
                declared: Some(declared),
                limits: bounds,
            }
        }
    }
}
