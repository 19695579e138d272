ghost use Rattle.std.specs.Prelude.{◌≡◌, ◌<◌, ◌^◌, length, IfErr};
ghost use Rattle.asked_project.specs.Asking.{options_asked};
ghost use Rattle.compose.specs.Ends.{IsStatusOf};

use crate::hinting::say_hint_on;
use crate::noting::{say_notes_on, says_notes};
use crate::progress::board_of;
use crate::reaching::Asked;
use crate::seconds::wait_seconds;
use compose_cli::Ended;
use engine_plugs::MainPlug;
use kept_files::KeptFiles;
use outside_files::{DiskFiles, OutSink};
use progress_board::{ClearedSink, another, clear};
use repeated_runs::{Attempts, compose_main};
use std::sync::Wait;
use std::thread::Threads;
use tree_base::{Env, List, Text};

/// Makes the top call with the disk's files, the standard streams and the plug of the program, and with several workers, and says a
/// hint behind its line, where there is one, and notes: its exit status.
pub(crate) fn status_of_call<R: Threads + Wait + Sync>(
    host: &HostRuntime,
    rt: &R,
    words: &List<Text>,
    variables: &Env,
    directory: &Text,
) -> u8
    requires { length words.now < 2 ^ 32 }
    ensures { IfErr (options_asked words.now variables.now) (λ refusal.
        IsStatusOf refusal result) }
{
    let files = DiskFiles::new(host.alloc(), host);
    // What is read is kept where notes are said, since a pipe can't be read again.
    let mut files = KeptFiles::new(host.alloc(), files, says_notes(host, variables));
    // Where memory is wanted for the words, the call itself says so.
    let seconds = wait_seconds(host.alloc(), words).unwrap_or(None);
    let board = board_of(host, variables);
    let mut plug = MainPlug::new(host, rt, seconds, another(board.as_ref()));
    let out = OutSink::new(host.stdout());
    let mut out = ClearedSink::new(host, rt, another(board.as_ref()), out);
    let err = OutSink::new(host.stderr());
    let mut err = ClearedSink::new(host, rt, another(board.as_ref()), err);
    let Attempts {
        earlier,
        last,
        looker,
    } = compose_main(
        host.alloc(),
        rt,
        words,
        variables,
        directory,
        &mut files,
        &mut plug,
        &mut out,
        &mut err,
    );
    clear(host, rt, board.as_ref());
    // By calls, since all drops would be proved at this place.
    drop(earlier);
    drop(looker);
    let asked = Asked {
        words,
        variables,
        directory,
    };
    say_hint_on(host, asked, &last, &mut err);
    say_notes_on(host, asked, &last, files.into_kept(), &mut err);
    status_in(last)
}

fn status_in<H: Drop>(ended: Ended<H>) -> u8
    ensures { result ≡ ended.status }
{
    let status = ended.status;
    drop(ended);
    status
}
