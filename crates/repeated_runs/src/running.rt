ghost use Rattle.std.specs.Prelude.{◌≡◌, ◌⊎◌, ◌<◌, ◌≤◌, ◌^◌, None, Some, IfErr, IfOk, IfSome, IsTrue};
ghost use Rattle.std.specs.Option.{ForSome};
ghost use Rattle.asked_run.specs.Declaring.{IsFailedDigest, declared_from};
ghost use Rattle.compose_cli.specs.Dialling.{IsDialAt, IsDialFor};
ghost use Rattle.compose_cli.specs.Ends.{SendsNothing};
ghost use Rattle.compose_cli.specs.Reaching.{IsReachable};
ghost use Rattle.compose_cli.specs.Runs.{IsDigestOf, IsUndeclared};
ghost use Rattle.file_digests.specs.declared.DigestRefusal.{DigestRefusal};
ghost use Rattle.ledger_run.specs.Tellings.{telling};
ghost use Rattle.loaded_files.specs.declared.LoadRefusal.{LoadRefusal};
ghost use Rattle.plan_core.specs.Order.{HasNoCycle};
ghost use Rattle.refusals.specs.Origins.{IsOfLoading, is_of_words};
ghost use Rattle.refusals.specs.Saying.{SaysRefusal};
ghost use Rattle.refusals.specs.Statuses.{status_of};
ghost use Rattle.refusals.specs.Went.{ReadsEnd};
ghost use Rattle.refusals.specs.declared.Refusal.{Refusal};
ghost use Rattle.repeated_runs.specs.Attempts.{AreAttempts, RanOnce};
ghost use Rattle.repeated_runs.specs.Calls.{RunsNothing, RunsProject};
ghost use Rattle.repeated_runs.specs.Followings.{shortened, task_by};
ghost use Rattle.repeated_runs.specs.Moments.{moment};
ghost use Rattle.run_laws.specs.Orders.{NeedsDependencies};
ghost use Rattle.run_model.specs.Plans.{IsWhole};
ghost use Rattle.service_graph.specs.Cycles.{cycle};
ghost use Rattle.tree_base.specs.Limits.{most_workers};
ghost use Rattle.typed_project.specs.DistinctNames.{IsKeyed};
ghost use Rattle.world_laws.specs.OwnSpecs.{HasOwnSpecs};

use crate::again::run_again;
use crate::attempt::Attempts;
use asked_project::Asked;
use asked_run::declared_asked;
use compose_cli::{Ended, Place, options_for, place_asked, refused};
use engine_types::{Aim, Declared, RunOptions};
use outside_api::Plug;
use outside_files::{Files, Sink};
use refusals::{Refusal, say_if_any, status_of};
use std::alloc::Global;
use std::mem::forget;
use std::sync::Wait;
use std::thread::Threads;
use tree_base::{Env, List, Memory, Text};

/// Does with what a project that was asked for declares what an aim asks for, with as many workers as its options say and within
/// what those of its command bound, or refuses what can't be declared.
pub(crate) fn run_asked<R: Threads + Wait + Sync, F: Files, P: Plug, O: Sink, G: Sink>(
    alloc: Global,
    rt: &R,
    asked: Asked,
    aim: Aim,
    env: &Env,
    cwd: &Text,
    files: &mut F,
    plug: &mut P,
    out: &mut O,
    err: &mut G,
) -> Attempts<P::Hand>
where
    P::Hand: Send,
    requires dialled { ForSome (P.dialled plug.old) (λ n. n < 2 ^ 61) }
    requires some { 1 ≤ asked.options.parallel }
    requires few { asked.options.parallel ≤ most_workers }
    requires keyed { IsKeyed asked.loaded.project }
    requires acyclic { cycle asked.loaded.project.services ≡ None }
    requires reachable { IsReachable asked.options env.now cwd.now }

    // What can't be declared is what the call is refused with; and nothing else is, but for reads that failed.
    ensures declaring { IfSome (F.told files.old) (λ contents.
        IfErr (declared_from contents asked.options.command asked.loaded) (λ refusal.
        SendsNothing result.last × IsUndeclared refusal result.last.refusal)) }
    ensures complete { IsOfLoading result.last.refusal → IfSome (F.told files.old) (λ contents.
        IfOk (declared_from contents asked.options.command asked.loaded) (λ declared.
        IsDigestOf asked.options.command asked.loaded.project (F.told files.old)
        (F.faults files.old) (F.faults files.new) result.last.refusal)) }
    ensures digest { (path : _)
        → result.last.refusal ≡ Some (Refusal.Digest (DigestRefusal.ReadFault path))
        → IsFailedDigest (F.told files.old) asked.options.command asked.loaded.project
        (F.faults files.old) (F.faults files.new) path }
    ensures words { (refusal : _) → IsTrue (is_of_words refusal)
        → result.last.refusal ≡ Some refusal → ⊥ }
    ensures load { (path : _)
        → result.last.refusal ≡ Some (Refusal.Load (LoadRefusal.ReadFault path)) → ⊥ }
    ensures reads { ReadsEnd (F.reads files.old) (F.reads files.new) result.last.refusal }
    ensures counted { F.faults files.old ≤ F.faults files.new }
    ensures nothing_sent { IsOfLoading result.last.refusal
        → SendsNothing result.last × RanOnce result }
    ensures quiet_loading { IsOfLoading result.last.refusal
        → O.written out.new ≡ O.written out.old }

    ensures attempts { RunsNothing result
        (moment (P.dials plug.old) (P.dialled plug.old) (P.faults plug.old)
        (O.written out.old) (O.faults out.old))
        (moment (P.dials plug.new) (P.dialled plug.new) (P.faults plug.new)
        (O.written out.new) (O.faults out.new))
        ⊎ RunsProject (λ h. telling (P.Hand.log h) (P.Hand.heard h) (P.Hand.faults h)
        (P.Hand.clock h) (P.Hand.engine h)) (IsDialFor asked.options env.now cwd.now)
        asked.options.parallel (F.told files.old) asked.options.command asked.loaded aim result
        (moment (P.dials plug.old) (P.dialled plug.old) (P.faults plug.old)
        (O.written out.old) (O.faults out.old))
        (moment (P.dials plug.new) (P.dialled plug.new) (P.faults plug.new)
        (O.written out.new) (O.faults out.new)) }
    ensures status { result.last.status ≡ status_of result.last.refusal }
    ensures line { SaysRefusal result.last.refusal (G.written err.old) (G.written err.new)
        (G.faults err.old) (G.faults err.new) }
{
    let options = options_for(&asked.options.command);
    let workers = asked.options.parallel;
    match declared_asked(alloc, &asked.options.command, &asked.loaded, files) {
        Ok(declared) => {
            let place = place_asked(alloc, &asked.options, env, cwd);
            // The call ends, and all its memory with it: the project isn't given back piece by piece.
            forget(asked);
            run_declared(
                alloc, rt, declared, aim, options, workers, place, plug, out, err,
            )
        }
        Err(refusal) => {
            forget(asked);
            Attempts {
                earlier: List::new(alloc),
                last: refused(alloc, refusal, err),
                looker: None,
            }
        }
    }
}

/// Does what an aim asks for of what is declared, at a place, and says what the last run is refused with.
fn run_declared<R: Threads + Wait + Sync, P: Plug, O: Sink, G: Sink>(
    alloc: Global,
    rt: &R,
    declared: Declared,
    aim: Aim,
    options: RunOptions,
    workers: u32,
    place: Result<Place, Memory>,
    plug: &mut P,
    out: &mut O,
    err: &mut G,
) -> Attempts<P::Hand>
where
    P::Hand: Send,
    requires told { ForSome (P.dialled plug.old) (λ n. n < 2 ^ 61) }
    requires some { 1 ≤ workers }
    requires few { workers ≤ most_workers }
    requires whole { IsWhole declared }
    requires acyclic { HasNoCycle declared }
    requires needs { NeedsDependencies declared }
    requires own { HasOwnSpecs declared }
    ensures attempts { AreAttempts
        (λ h. telling (P.Hand.log h) (P.Hand.heard h) (P.Hand.faults h) (P.Hand.clock h)
        (P.Hand.engine h)) (IsDialAt place) workers
        (task_by (λ h. telling (P.Hand.log h) (P.Hand.heard h) (P.Hand.faults h)
        (P.Hand.clock h) (P.Hand.engine h)) declared aim options workers
        result.earlier result.last) result
        (moment (P.dials plug.old) (P.dialled plug.old) (P.faults plug.old)
        (O.written out.old) (O.faults out.old))
        (moment (P.dials plug.new) (P.dialled plug.new) (P.faults plug.new)
        (O.written out.new) (O.faults out.new)) }
    ensures status { result.last.status ≡ status_of result.last.refusal }
    ensures line { SaysRefusal result.last.refusal (G.written err.old) (G.written err.new)
        (G.faults err.old) (G.faults err.new) }
{
    let Ok(place) = place else {
        drop(declared);
        return Attempts {
            earlier: List::new(alloc),
            last: refused(alloc, Refusal::Memory, err),
            looker: None,
        };
    };
    let attempts = run_again(
        alloc, rt, declared, aim, options, workers, &place, plug, out,
    );
    said(alloc, attempts, err)
}

/// Says what the last run is refused with.
fn said<H, G: Sink>(alloc: Global, attempts: Attempts<H>, err: &mut G) -> Attempts<H>
    requires { attempts.last.status ≡ status_of attempts.last.refusal }
    ensures earlier { result.earlier ≡ attempts.earlier }
    ensures last { (result.last ≡ attempts.last) ⊎ (result.last ≡ shortened attempts.last) }
    ensures looker { result.looker ≡ attempts.looker }
    ensures status { result.last.status ≡ status_of result.last.refusal }
    ensures line { SaysRefusal result.last.refusal (G.written err.old) (G.written err.new)
        (G.faults err.old) (G.faults err.new) }
{
    let Attempts {
        earlier,
        last,
        looker,
    } = attempts;
    let Ended {
        status: _,
        journal,
        hands,
        refusal,
    } = last;
    let refusal = say_if_any(alloc, refusal, err);
    Attempts {
        earlier,
        last: Ended {
            status: status_of(&refusal),
            journal,
            hands,
            refusal,
        },
        looker,
    }
}
