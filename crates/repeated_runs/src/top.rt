ghost use Rattle.std.specs.Prelude.{◌≡◌, ◌⊎◌, ◌<◌, ◌^◌, Some, None, Err, IfSome, IfErr, IfOk, IsTrue, length};
ghost use Rattle.std.specs.Option.{ForSome};
ghost use Rattle.asked_project.specs.Asking.{command_of, options_asked};
ghost use Rattle.asked_project.specs.Meaning.{IsFailedRead, meaning};
ghost use Rattle.compose_cli.specs.Ends.{IsRefusedWith, SendsNothing, WritesPage, WritesPrefix, failed_digest, failed_output, failed_read};
ghost use Rattle.compose_cli.specs.Runs.{IfDeclared, IfRuns, IsFailedDigestRead, IsFaultOfReads, IsUndeclared, aim_asked};
ghost use Rattle.compose_config.specs.Commands.{IfLoads, IsConfig, IsOfConfig, IsReadFault, OnlyOutsideFails};
ghost use Rattle.ledger_run.specs.Tellings.{telling};
ghost use Rattle.outside_files.specs.Counts.{Rose};
ghost use Rattle.refusals.specs.Origins.{IsOfLoading, is_of_words};
ghost use Rattle.refusals.specs.Saying.{IsSaid, SaysRefusal};
ghost use Rattle.refusals.specs.Statuses.{status_of};
ghost use Rattle.refusals.specs.Went.{ReadsEnd};
ghost use Rattle.repeated_runs.specs.Attempts.{RanOnce};
ghost use Rattle.repeated_runs.specs.Calls.{AsksNothing, RunsAsked, RunsNothing};
ghost use Rattle.repeated_runs.specs.Moments.{moment};
ghost use Rattle.repeated_runs.specs.Workers.{workers_asked};

use crate::attempt::Attempts;
use crate::running::run_asked;
use asked_project::project_asked;
use compose_cli::{aim_for, print_page, refused};
use outside_api::Plug;
use outside_files::{Files, Sink};
use std::alloc::Global;
use std::sync::Wait;
use std::thread::Threads;
use tree_base::{Env, List, Text};

/// Does what the words of the command line ask for, with as many workers as `--parallel` says, 4 where nothing is said: each has a
/// hand of its own and works in a thread of its own, and where no thread can be made, they work one after another. A worker may
/// wait for the turn of another one.
///
/// These commands are built: `config`, also with `--quiet`, which writes the project's page to `out`; and `up` and `down`, also with
/// `--remove-orphans`, `--scale` and `--volumes`, which bring what the project of the Compose files declares up, or take it down:
/// on an Engine in memory with `--memory`, else on the one behind the socket of `--socket`, of `DOCKER_HOST`, or the usual
/// one. The report of a run is written to `out`, one line for each action that ended well, in the order in which they ended, and
/// the line of a refusal to `err`.
///
/// The hands are dialled in the order of their workers, each with its worker's number, and room for all of them is taken before
/// the first dial. Where a dial fails, there is no other after it, nothing is sent, and the hands that were made are handed back. Words
/// and files are read once. Where a run ended since a create was refused whose name is used, a further hand looks whether what it
/// would have made is there by now, every 250 ms and 8 times at most, within the run's deadline and until it is asked to stop;
/// where it is, the run is made again, once for each container, network or volume at most. What the Engine that the hands tell
/// went through isn't said here: what several hands did is one history only where their Engine is one. What each Engine holds at
/// the end that may have given the journal's replies is said.
pub fn compose_main<R: Threads + Wait + Sync, F: Files, P: Plug, O: Sink, G: Sink>(
    alloc: Global,
    rt: &R,
    words: &List<Text>,
    env: &Env,
    cwd: &Text,
    files: &mut F,
    plug: &mut P,
    out: &mut O,
    err: &mut G,
) -> Attempts<P::Hand>
where
    P::Hand: Send,
    requires count { length words.now < 2 ^ 32 }
    requires told { ForSome (P.dialled plug.old) (λ n. n < 2 ^ 61) }

    // Where words are refused, or the files are told, what is meant to be refused is what the call is refused with.
    ensures words { IfErr (options_asked words.now env.now) (λ refusal.
        SendsNothing result.last × IsSaid refusal result.last.refusal) }
    ensures words_only { (refusal : _) → IsTrue (is_of_words refusal)
        → result.last.refusal ≡ Some refusal → options_asked words.now env.now ≡ Err refusal }
    ensures loading { IfSome (F.told files.old) (λ contents. IfErr
        (meaning words.now env.now cwd.now contents) (λ refusal. IsRefusedWith refusal result.last)) }
    ensures read_fault { (path : _) → result.last.refusal ≡ failed_read path
        → IsFailedRead words.now env.now cwd.now (F.told files.old)
        (F.faults files.old) (F.faults files.new) path }

    // Of a project that is meant, what it can't be declared as is what its run is refused with.
    ensures declaring { IfDeclared words.now env.now cwd.now (F.told files.old) (λ meant.
        IfErr meant (λ refusal. SendsNothing result.last × IsUndeclared refusal result.last.refusal)) }
    ensures digest_fault { (path : _) → result.last.refusal ≡ failed_digest path
        → IsFailedDigestRead words.now env.now cwd.now (F.told files.old)
        (F.faults files.old) (F.faults files.new) path }

    // Where no read had failed before, none fails but the last, and that is what the call is then refused with, by its path.
    ensures reads { ReadsEnd (F.reads files.old) (F.reads files.new) result.last.refusal }

    // A refused project sends nothing, and neither does `config`: there is no run, and no hand is asked for.
    ensures nothing_sent { IsOfLoading result.last.refusal
        → SendsNothing result.last × RanOnce result }
    ensures config { aim_asked (command_of words.now env.now) ≡ None → AsksNothing result
        (P.dials plug.old) (P.dials plug.new) (P.dialled plug.old) (P.dialled plug.new) }

    // The status is that of the refusal of the last run, whose line is written to `err`.
    ensures status { result.last.status ≡ status_of result.last.refusal }
    ensures line { SaysRefusal result.last.refusal (G.written err.old) (G.written err.new)
        (G.faults err.old) (G.faults err.new) }

    // `config` writes the page of the project at status 0, and nothing with `--quiet`; else nothing, or a prefix of it.
    ensures page { IsConfig (command_of words.now env.now) → result.last.status ≡ 0 → WritesPage
        words.now env.now cwd.now (F.told files.old) (O.written out.old) (O.written out.new) }
    ensures page_prefix { IsConfig (command_of words.now env.now)
        → (O.written out.new ≡ O.written out.old) ⊎ WritesPrefix
        words.now env.now cwd.now (F.told files.old) (O.written out.old) (O.written out.new) }
    ensures page_fault { IsConfig (command_of words.now env.now)
        → result.last.refusal ≡ failed_output → Rose (O.faults out.old) (O.faults out.new) }

    // Nothing else refuses `config`: a project that loads is printed, unless memory is wanted or something outside fails.
    ensures page_kind { IsConfig (command_of words.now env.now) → IsOfConfig result.last.refusal }
    ensures page_complete { IsConfig (command_of words.now env.now)
        → IfLoads words.now env.now cwd.now (F.told files.old) (OnlyOutsideFails (IsReadFault
        words.now env.now cwd.now (F.told files.old) (F.faults files.old) (F.faults files.new))
        (O.faults out.old) (O.faults out.new) result.last.refusal) }

    // Nor an `up` or a `down` before its run: of a project that is declared, only a read of its files that fails.
    ensures run_complete { IsOfLoading result.last.refusal
        → IfDeclared words.now env.now cwd.now (F.told files.old) (λ meant. IfOk meant (λ declared.
        IsFaultOfReads words.now env.now cwd.now (F.told files.old) (F.faults files.old)
        (F.faults files.new) result.last.refusal)) }

    // A call that is refused before its run writes nothing to `out`.
    ensures quiet { IsOfLoading result.last.refusal → O.written out.new ≡ O.written out.old }

    // An `up` or a `down` was refused before its first dial, or there was no memory for it, and wrote nothing. Else it ran what the words
    // ask for of one project, with a hand for each of its workers, and again where a create was refused whose name is used and what it
    // makes has come since: of this one task is all that `AreAttempts` says, which dials there were, what each run ended with, that
    // the reports stand in order, and what the last one left.
    ensures attempts { IfRuns words.now env.now (λ aim. RunsNothing result
        (moment (P.dials plug.old) (P.dialled plug.old) (P.faults plug.old)
        (O.written out.old) (O.faults out.old))
        (moment (P.dials plug.new) (P.dialled plug.new) (P.faults plug.new)
        (O.written out.new) (O.faults out.new))
        ⊎ RunsAsked (λ h. telling (P.Hand.log h) (P.Hand.heard h) (P.Hand.faults h)
        (P.Hand.clock h) (P.Hand.engine h)) (workers_asked words.now env.now)
        words.now env.now cwd.now (F.told files.old) result
        (moment (P.dials plug.old) (P.dialled plug.old) (P.faults plug.old)
        (O.written out.old) (O.faults out.old))
        (moment (P.dials plug.new) (P.dialled plug.new) (P.faults plug.new)
        (O.written out.new) (O.faults out.new))) }
{
    match project_asked(alloc, words, env, cwd, files) {
        Ok(asked) => match aim_for(&asked.options.command) {
            Some(aim) => { run_asked(alloc, rt, asked, aim, env, cwd, files, plug, out, err) }
            None => Attempts {
                earlier: List::new(alloc),
                last: print_page(alloc, asked, out, err),
                looker: None,
            },
        },
        Err(refusal) => Attempts {
            earlier: List::new(alloc),
            last: refused(alloc, refusal, err),
            looker: None,
        },
    }
}
