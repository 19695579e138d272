ghost use Rattle.std.specs.Prelude.{◌≡◌, ◌≤◌, ◌<◌, ◌↔◌, IfSome, IsTrue, None, length, take};
ghost use Rattle.outside_files.specs.Counts.{Rose, one_more};
ghost use Rattle.outside_files.specs.Sinks.{IsWriteOf, taken};
ghost use Rattle.outside_api.specs.Pipes.{IsGotOf, ToldBy, after_read, after_write};

use crate::patience::Patience;
use crate::times::milliseconds;
use outside_api::{Pipe, PipeAnswer, SinkAnswer};
use progress_board::{SharedBoard, tell_late};
use std::io::{self, ErrorKind, Read, Write};
use std::os::unix::net::UnixStream;
use std::sync::Arc;
use std::time::Duration;

/// How many milliseconds a call waits for its peer before it looks whether its patience is over, and tells the board what time it is.
const BETWEEN_LOOKS: u64 = 200;

/// One connection over a Unix socket. It tells nothing of what is said on it, and counts its faults: each call that failed,
/// and each write that took nothing of a piece that isn't empty. A call also fails once its patience is over. While one lasts, it tells
/// a board, if there is one, what time it is.
#[derive(Drop)]
pub struct SocketPipe<'r> {
    rt: &'r HostRuntime,
    stream: UnixStream,
    failed: u64,
    /// Where there is none, calls wait as long as their peer does.
    patience: Option<Arc<Patience>>,
    board: Option<SharedBoard>,
    /// When the stop file was first found.
    stopped: Option<u64>,
    /// When it looks next.
    next_look: u64,
}

impl<'r> SocketPipe<'r> {
    ghost use Rattle.socket_wire.specs.PipesOfSockets.{failed_calls};

    /// A connection that was just opened. No memory.
    pub fn new(
        rt: &'r HostRuntime,
        stream: UnixStream,
        patience: Option<Arc<Patience>>,
        board: Option<SharedBoard>,
    ) -> SocketPipe<'r>
        ensures talk { ⟦<SocketPipe<'r> as Pipe>⟧.talk result ≡ None }
        ensures faults { ⟦<SocketPipe<'r> as Pipe>⟧.faults result ≡ 0 }
    {
        hold_calls_to(&stream, Duration::from_millis(BETWEEN_LOOKS));
        SocketPipe {
            rt,
            stream,
            failed: 0,
            patience,
            board,
            stopped: None,
            next_look: 0,
        }
    }

    /// Whether its patience lasts. It looks at most five times a second, and between two looks it does.
    fn is_patient(&mut self) -> bool
        ensures { failed_calls self.new ≡ failed_calls self.old }
    {
        let now = milliseconds(self.rt, 0);
        if now < self.next_look {
            return true;
        }
        self.next_look = now.saturating_add(BETWEEN_LOOKS);
        if let Some(board) = &self.board {
            tell_late(self.rt, board, now);
        }
        let Some(patience) = &self.patience else {
            return true;
        };
        if self.stopped.is_none() && patience.finds_stop_file(self.rt) {
            self.stopped = Some(now);
        }
        !patience.is_over(self.stopped, now)
    }

    /// Writes the first bytes of a piece, as soon as its peer takes some: how many. None where that failed, or patience was over.
    /// No memory.
    fn write_patiently(&mut self, piece: &[u8]) -> Option<usize>
        ensures within { IfSome result (λ taken. taken ≤ length piece.now) }
        ensures failed { failed_calls self.new ≡ failed_calls self.old }
    {
        for _ in 0..u64::MAX {
            if !self.is_patient() {
                return None;
            }
            match self.stream.write(piece) {
                Ok(taken) => return Some(taken),
                Err(error) if is_wait(&error) => {}
                Err(_) => return None,
            }
        }
        None
    }

    /// Reads the next bytes, as soon as its peer sends some: how many. None where that failed, or patience was over. No memory.
    fn read_patiently(&mut self, room: &mut [u8]) -> Option<usize>
        ensures within { IfSome result (λ count. count ≤ length room.old) }
        ensures failed { failed_calls self.new ≡ failed_calls self.old }
    {
        for _ in 0..u64::MAX {
            if !self.is_patient() {
                return None;
            }
            match self.stream.read(room) {
                Ok(count) => return Some(count),
                Err(error) if is_wait(&error) => {}
                Err(_) => return None,
            }
        }
        None
    }

    /// Whether it counted a fault. No memory.
    pub fn has_failed(&self) -> bool
        ensures { IsTrue result ↔ (0 < failed_calls self.now) }
    {
        self.failed > 0
    }

    /// Counts a fault. The count stands still at the greatest `u64`. No memory.
    fn count_fault(&mut self)
        ensures failed { failed_calls self.new ≡ one_more (failed_calls self.old) }
        ensures rose { Rose (failed_calls self.old) (failed_calls self.new) }
        ensures never_falls { failed_calls self.old ≤ failed_calls self.new }
    {
        self.failed = self.failed.saturating_add(1);
    }
}

impl<'r> Pipe for SocketPipe<'r> {
    ghost use Rattle.socket_wire.specs.PipesOfSockets.{failed_calls, faults_after_read, faults_after_write, no_talk};

    ghost talk = { λ _. None };

    ghost faults = { λ pipe. pipe.failed };

    /// Writes the first bytes of a piece. It counts a fault exactly where it failed, which it also does once its patience is over,
    /// or took nothing of a piece that isn't empty. No memory.
    fn write(&mut self, piece: &[u8]) -> SinkAnswer
        ensures counted { failed_calls self.old ≤ failed_calls self.new }
        ensures answer { IsWriteOf piece.now (failed_calls self.old)
            (failed_calls self.new) result }
        ensures told { ToldBy (after_write (take (taken result) piece.now)) no_talk no_talk }
        ensures exact { failed_calls self.new
            ≡ faults_after_write piece.now result (failed_calls self.old) }
    {
        match self.write_patiently(piece) {
            Some(taken) => {
                if taken == 0 && !piece.is_empty() {
                    self.count_fault();
                }
                SinkAnswer::Took(taken)
            }
            None => {
                self.count_fault();
                SinkAnswer::Failed
            }
        }
    }

    /// Reads the next bytes, none where the peer closed the connection. It counts a fault exactly where it failed, which it also
    /// does once its patience is over. No memory.
    fn read(&mut self, room: &mut [u8]) -> PipeAnswer
        requires { 0 < length room.old }
        ensures counted { failed_calls self.old ≤ failed_calls self.new }
        ensures answer { IsGotOf (length room.old) (failed_calls self.old) (failed_calls self.new)
            result }
        ensures told { ToldBy (after_read room.new result) no_talk no_talk }
        ensures exact { failed_calls self.new ≡ faults_after_read result (failed_calls self.old) }
    {
        match self.read_patiently(room) {
            Some(count) => PipeAnswer::Got(count),
            None => {
                self.count_fault();
                PipeAnswer::Failed
            }
        }
    }
}

/// Lets reads and writes wait no longer than that; where this can't be set, they wait as long as their peer does. No memory.
fn hold_calls_to(stream: &UnixStream, time: Duration) {
    drop(stream.set_read_timeout(Some(time)));
    drop(stream.set_write_timeout(Some(time)));
}

/// Whether a call ended since it waited for so long, or since the process was stopped and goes on: the system ends calls that have such
/// a limit then. No memory.
fn is_wait(error: &io::Error) -> bool {
    matches!(
        error.kind(),
        ErrorKind::WouldBlock | ErrorKind::TimedOut | ErrorKind::Interrupted
    )
}
