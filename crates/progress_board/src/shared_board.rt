ghost use Rattle.std.specs.Prelude.{◌≢◌, IsSome};
ghost use Rattle.progress_board.specs.declared.progress.Progress.{Progress};

use crate::board::Board;
use crate::progress::Progress;
use crate::subject::Subject;
use engine_types::{Outcome, Request};
use outside_files::{OutSink, write_all};
use std::alloc::Global;
use std::sync::{Arc, Mutex, Wait};
use tree_base::{Memory, Text};

/// A board that the hands of a call share.
pub type SharedBoard = Arc<Mutex<Board>>;

/// What takes a line away from a terminal: back to its first column, and all behind that (ECMA-48).
const TAKEN_AWAY: &str = "\r\x1B[K";

/// The board of a call that tells so much; none where it tells nothing, or where memory is wanted for it.
pub fn board_for(alloc: Global, progress: Progress) -> Option<SharedBoard>
    ensures { IsSome result → progress ≢ Progress.Quiet }
{
    let is_plain = match progress {
        Progress::Quiet => return None,
        Progress::Plain => true,
        Progress::Terminal => false,
    };
    Arc::new(alloc, Mutex::new(Board::new(alloc, is_plain))).ok()
}

/// The same board once more, if there is one. No memory.
pub fn another(board: Option<&SharedBoard>) -> Option<SharedBoard> {
    Arc::try_clone(board?).ok()
}

/// A worker begins an exchange: what the board is to be told at its end.
pub fn tell_begin<R: Wait>(
    rt: &R,
    board: &SharedBoard,
    worker: u32,
    request: &Request,
    now: u64,
) -> Subject {
    board.lock(rt).begin(worker, request, now)
}

/// A worker's exchange has ended.
pub fn tell_end<R: Wait>(
    host: &HostRuntime,
    rt: &R,
    board: &SharedBoard,
    worker: u32,
    subject: &Subject,
    outcome: &Outcome,
    now: u64,
) {
    // What is said is written before anybody else is at the board.
    let mut guard = board.lock(rt);
    let text = guard.end(worker, subject, outcome, now);
    say(host, text);
}

/// So late it is. Where somebody else is at the board, nothing is said now.
pub fn tell_late(host: &HostRuntime, board: &SharedBoard, now: u64) {
    if let Some(mut guard) = board.try_lock() {
        let text = guard.late(now);
        say(host, text);
    }
}

/// Takes all rows away, and the line of the terminal, where there is a board.
pub fn clear<R: Wait>(host: &HostRuntime, rt: &R, board: Option<&SharedBoard>) {
    let Some(board) = board else {
        return;
    };
    let mut guard = board.lock(rt);
    if guard.clear() {
        write(host, TAKEN_AWAY);
    }
}

/// Writes what is to be said, if anything. Where memory is wanted for it, nothing is said.
fn say(host: &HostRuntime, text: Result<Text, Memory>) {
    if let Ok(text) = text {
        write(host, text.as_str());
    }
}

fn write(host: &HostRuntime, text: &str) {
    let mut err = OutSink::new(host.stderr());
    write_all(&mut err, text.as_bytes());
}
