ghost use Rattle.std.specs.Prelude.{◌≡◌, ◌<◌, ◌≤◌, [], None, Some, IfSome, length};
ghost use Rattle.compose_cli.specs.Runs.{first_reading};
ghost use Rattle.engine_types.specs.declared.RunFault.{RunFault};
ghost use Rattle.ledger_run.specs.Tellings.{telling};
ghost use Rattle.plan_core.specs.Order.{HasNoCycle};
ghost use Rattle.project_run.specs.Options.{AreFor, limits_in};
ghost use Rattle.project_run.specs.Whole.{IfBegun, IsFault, IsReport, task_of};
ghost use Rattle.repeated_runs.specs.Hands.{AreNew};
ghost use Rattle.repeated_runs.specs.Running.{RunsNew};
ghost use Rattle.run_laws.specs.Orders.{NeedsDependencies};
ghost use Rattle.run_model.specs.Plans.{HasSmallNumbers, IsWhole};
ghost use Rattle.run_model.specs.Runs.{run_fault, run_report};
ghost use Rattle.tree_base.specs.Limits.{most_workers};

use engine_types::{Aim, Declared, RunLimits, RunOptions};
use outside_api::Hand;
use parallel_run::{HandedTogether, run_parallel_given};
use std::alloc::Global;
use std::sync::Wait;
use std::thread::Threads;
use tree_base::List;

/// Carries out for a declared set what an aim asks for, with a new hand for each of 1 to 16 workers, each of which works in a thread
/// of its own; where no thread can be made, they work one after another. The run is made within limits that an earlier run of the
/// same had, where they are given, else within those that options set by the first reading of hand 0's clock. The hands come
/// back in their order, and so do the limits, and the declared set but where memory was wanted. A worker may wait for the turn of
/// another one.
pub(crate) fn run_new<R: Threads + Wait + Sync, H: Hand + Send>(
    alloc: Global,
    rt: &R,
    hands: List<H>,
    declared: Declared,
    aim: Aim,
    options: RunOptions,
    given: Option<RunLimits>,
) -> HandedTogether<H>
    requires some { 0 < length hands }
    requires few { length hands ≤ most_workers }
    requires fresh { AreNew (λ h. telling (H.log h) (H.heard h) (H.faults h) (H.clock h)
        (H.engine h)) hands }
    requires given { AreFor (length hands) given }
    requires whole { IsWhole declared }
    requires small { HasSmallNumbers declared }
    requires acyclic { HasNoCycle declared }
    requires needs { NeedsDependencies declared }
    ensures hands { length result.hands ≡ length hands }
    ensures empty { result.ran.journal ≡ []
        → (result.ran.fault ≡ Some RunFault.Memory) × (result.hands ≡ hands) }
    ensures limits { result.limits ≡ limits_in (length hands) options given
        (first_reading (λ h. H.clock h) result.hands) }
    ensures runs { IfBegun result.ran.journal (RunsNew (λ h. telling (H.log h) (H.heard h)
        (H.faults h) (H.clock h) (H.engine h)) (task_of declared aim result.limits)
        result.ran.journal result.hands) }
    ensures fault { IfBegun result.ran.journal (IsFault
        (run_fault (task_of declared aim result.limits) result.ran.journal)
        result.ran.fault) }
    ensures report { IsReport
        (run_report (task_of declared aim result.limits) result.ran.journal)
        result.ran.fault result.ran.report }
    ensures back { IfSome result.declared (λ same. same ≡ declared) }
    ensures lost { result.declared ≡ None → result.ran.fault ≡ Some RunFault.Memory }
{
    run_parallel_given(alloc, rt, hands, declared, aim, options, given)
}
