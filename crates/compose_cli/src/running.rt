ghost use Rattle.std.specs.Prelude.{◌≡◌, ◌<◌, ◌≤◌, ◌^◌, [], None, Some, IfErr, IfOk, IfSome, IsTrue, length};
ghost use Rattle.std.specs.Option.{ForSome};
ghost use Rattle.asked_run.specs.Declaring.{ForDeclared, IsFailedDigest, declared_from};
ghost use Rattle.compose_cli.specs.Dialling.{Dials, IsDialFor};
ghost use Rattle.compose_cli.specs.Ends.{CountsHands, SendsNothing};
ghost use Rattle.compose_cli.specs.Reaching.{IsReachable};
ghost use Rattle.compose_cli.specs.Runs.{IsDigestOf, IsUnbegun, IsUndeclared, RanAlone, first_reading, options_for};
ghost use Rattle.file_digests.specs.declared.DigestRefusal.{DigestRefusal};
ghost use Rattle.ledger_run.specs.Tellings.{telling};
ghost use Rattle.loaded_files.specs.declared.LoadRefusal.{LoadRefusal};
ghost use Rattle.outside_files.specs.Counts.{Rose};
ghost use Rattle.project_run.specs.Whole.{IfBegun, task_of};
ghost use Rattle.refusals.specs.Origins.{IsOfLoading, is_of_words};
ghost use Rattle.refusals.specs.Saying.{SaysRefusal};
ghost use Rattle.refusals.specs.Statuses.{status_of};
ghost use Rattle.refusals.specs.Went.{ReadsEnd};
ghost use Rattle.refusals.specs.declared.Part.{Part};
ghost use Rattle.refusals.specs.declared.Refusal.{Refusal};
ghost use Rattle.run_model.specs.EngineRules.{Among};
ghost use Rattle.run_model.specs.Runs.{limits_of};
ghost use Rattle.service_graph.specs.Cycles.{cycle};
ghost use Rattle.typed_project.specs.DistinctNames.{IsKeyed};

use crate::aims::options_for;
use crate::ended::Ended;
use crate::reaching::place_asked;
use crate::run::{refused, run_declared};
use asked_project::Asked;
use asked_run::declared_asked;
use engine_types::Aim;
use outside_api::Plug;
use outside_files::{Files, Sink};
use std::alloc::Global;
use std::mem::forget;
use tree_base::{Env, Text};

/// Does with what a project that was asked for declares what an aim asks for, within what the options of its command bound, or
/// refuses what can't be declared.
pub(crate) fn run_asked<F: Files, P: Plug, O: Sink, G: Sink>(
    alloc: Global,
    asked: Asked,
    aim: Aim,
    env: &Env,
    cwd: &Text,
    files: &mut F,
    plug: &mut P,
    out: &mut O,
    err: &mut G,
) -> Ended<P::Hand>
    requires dialled { ForSome (P.dialled plug.old) (λ n. n < 2 ^ 61) }
    requires keyed { IsKeyed asked.loaded.project }
    requires acyclic { cycle asked.loaded.project.services ≡ None }
    requires reachable { IsReachable asked.options env.now cwd.now }

    // What can't be declared is what the call is refused with; and nothing else is, but for reads that failed.
    ensures declaring { IfSome (F.told files.old) (λ contents.
        IfErr (declared_from contents asked.options.command asked.loaded) (λ refusal.
        SendsNothing result × IsUndeclared refusal result.refusal)) }
    ensures complete { IsOfLoading result.refusal → IfSome (F.told files.old) (λ contents.
        IfOk (declared_from contents asked.options.command asked.loaded) (λ declared.
        IsDigestOf asked.options.command asked.loaded.project (F.told files.old)
        (F.faults files.old) (F.faults files.new) result.refusal)) }
    ensures digest { (path : _)
        → result.refusal ≡ Some (Refusal.Digest (DigestRefusal.ReadFault path))
        → IsFailedDigest (F.told files.old) asked.options.command asked.loaded.project
        (F.faults files.old) (F.faults files.new) path }
    ensures words { (refusal : _) → IsTrue (is_of_words refusal)
        → result.refusal ≡ Some refusal → ⊥ }
    ensures load { (path : _)
        → result.refusal ≡ Some (Refusal.Load (LoadRefusal.ReadFault path)) → ⊥ }
    ensures reads { ReadsEnd (F.reads files.old) (F.reads files.new) result.refusal }
    ensures counted { F.faults files.old ≤ F.faults files.new }
    ensures nothing_sent { IsOfLoading result.refusal → SendsNothing result }
    ensures quiet_loading { IsOfLoading result.refusal → O.written out.new ≡ O.written out.old }

    ensures dials { Dials (IsDialFor asked.options env.now cwd.now) 1 (P.dials plug.old)
        (P.dials plug.new) (length result.hands) result.refusal }
    ensures dial { result.refusal ≡ Some (Refusal.Outside Part.Plug)
        → SendsNothing result × Rose (P.faults plug.old) (P.faults plug.new) }
    ensures dialled { CountsHands (P.dialled plug.old) (P.dialled plug.new) (length result.hands) }
    ensures unbegun { result.journal ≡ [] → IsUnbegun result.refusal }
    ensures quiet_unbegun { result.journal ≡ [] → O.written out.new ≡ O.written out.old }
    ensures unsent { result.journal ≡ [] → (hand : P.Hand) → Among result.hands hand
        → P.Hand.log hand ≡ [] }
    ensures ran { IfBegun result.journal (ForDeclared (F.told files.old)
        asked.options.command asked.loaded (λ declared. RanAlone
        (λ h. telling (P.Hand.log h) (P.Hand.heard h) (P.Hand.faults h) (P.Hand.clock h)
        (P.Hand.engine h)) (P.engine plug.old) (task_of declared aim
        (limits_of 1 (options_for asked.options.command)
        (first_reading (λ h. P.Hand.clock h) result.hands))) result
        (O.written out.old) (O.written out.new) (O.faults out.old) (O.faults out.new))) }
    ensures status { result.status ≡ status_of result.refusal }
    ensures line { SaysRefusal result.refusal (G.written err.old) (G.written err.new)
        (G.faults err.old) (G.faults err.new) }
    ensures quiet { result.refusal ≡ Some (Refusal.Outside Part.Plug)
        → O.written out.new ≡ O.written out.old }
{
    let options = options_for(&asked.options.command);
    match declared_asked(alloc, &asked.options.command, &asked.loaded, files) {
        Ok(declared) => {
            let place = place_asked(alloc, &asked.options, env, cwd);
            // The call ends, and all its memory with it: the project isn't given back piece by piece.
            forget(asked);
            run_declared(alloc, declared, aim, options, place, plug, out, err)
        }
        Err(refusal) => {
            forget(asked);
            refused(alloc, refusal, err)
        }
    }
}
