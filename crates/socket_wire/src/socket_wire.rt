ghost use Rattle.std.specs.Prelude.{◌≡◌, ◌≤◌, ◌+◌, ◌<◌, ◌^◌, None, IfSome, IsFalse, length};
ghost use Rattle.std.specs.Arc.{arc_value};
ghost use Rattle.outside_files.specs.Counts.{Rose, one_more};
ghost use Rattle.outside_api.specs.Clock.{new_clock, after_now, after_pause, after_asked};
ghost use Rattle.outside_api.specs.Pipes.{silence};
ghost use Rattle.outside_api.specs.Wires.{Dials, GrewByTalk, RoseBy};
ghost use Rattle.outside_api.specs.ClockCounts.{counts_of};
ghost use Rattle.socket_wire.specs.Patiences.{file_of};
ghost use Rattle.socket_wire.specs.PipesOfSockets.{failed_calls, no_talk};

use crate::patience::Patience;
use crate::socket_pipe::SocketPipe;
use crate::times::milliseconds;
use outside_api::{ClockCounts, DialAnswer, Pipe, Wire};
use progress_board::{SharedBoard, another};
use std::alloc::Global;
use std::os::unix::net::UnixStream;
use std::sync::Arc;
use std::thread;
use std::time::Duration;
use tree_base::Text;
use wires::EvenWire;

/// A wire over a Unix socket, which it connects to at each dial. It tells nothing of what was said, and counts its faults: each
/// dial that failed, and each connection with a fault that was closed.
///
/// Its time is that of the system's clock that never goes back. It is asked to stop where a file is found at the path of its
/// stop file, and never without one. Its connections last as long as its patience, and tell its board, if it has one, what time it is.
#[derive(Drop)]
pub struct SocketWire<'r> {
    rt: &'r HostRuntime,
    path: Text,
    patience: Arc<Patience>,
    board: Option<SharedBoard>,
    dialled: u64,
    failed: u64,
    clock: ClockCounts,
}

impl<'r> SocketWire<'r> {
    ghost use Rattle.socket_wire.specs.WiresOfSockets.{failed_dials, opened, path_of, stop_file_of};

    /// A wire over the socket at a path, which opened no connection yet. No memory.
    pub fn new(
        rt: &'r HostRuntime,
        path: Text,
        patience: Arc<Patience>,
        board: Option<SharedBoard>,
    ) -> SocketWire<'r>
        ensures path { path_of result ≡ path }
        ensures stop_file { stop_file_of result ≡ file_of (arc_value patience) }
        ensures past { ⟦<SocketWire<'r> as Wire>⟧.past result ≡ None }
        ensures dialled { ⟦<SocketWire<'r> as Wire>⟧.dialled result ≡ 0 }
        ensures faults { ⟦<SocketWire<'r> as Wire>⟧.faults result ≡ 0 }
        ensures clock { ⟦<SocketWire<'r> as Wire>⟧.clock result ≡ new_clock }
    {
        SocketWire {
            rt,
            path,
            patience,
            board,
            dialled: 0,
            failed: 0,
            clock: ClockCounts::new(),
        }
    }

    /// Counts a fault. The count stands still at the greatest `u64`. No memory.
    fn count_fault(&mut self)
        ensures failed { failed_dials self.new ≡ one_more (failed_dials self.old) }
        ensures rose { Rose (failed_dials self.old) (failed_dials self.new) }
        ensures never_falls { failed_dials self.old ≤ failed_dials self.new }
        ensures opened { opened self.new ≡ opened self.old }
        ensures path { path_of self.new ≡ path_of self.old }
        ensures stop_file { stop_file_of self.new ≡ stop_file_of self.old }
        ensures clock { counts_of self.new.clock ≡ counts_of self.old.clock }
    {
        self.failed = self.failed.saturating_add(1);
    }
}

impl<'r> Wire for SocketWire<'r> {
    type P = SocketPipe<'r>;

    ghost use Rattle.socket_wire.specs.WiresOfSockets.{failed_dials, faults_after_close, faults_after_dial, no_past, opened, path_of, stop_file_of};
    ghost use Rattle.socket_wire.specs.declared.socket_pipe.SocketPipe.{SocketPipe};

    ghost past = { λ _. None };

    ghost dialled = { λ wire. wire.dialled };

    ghost faults = { λ wire. wire.failed };

    ghost clock = { λ wire. counts_of wire.clock };

    /// Connects to the socket. It counts a fault exactly where that fails. No memory.
    fn dial(&mut self, _alloc: Global) -> DialAnswer<SocketPipe<'r>>
        requires { self.old.dialled < 2 ^ 62 }
        ensures counted { failed_dials self.old ≤ failed_dials self.new }
        ensures answer { Dials (failed_dials self.old) (failed_dials self.new) (opened self.old)
            (opened self.new) result }
        ensures fresh { (pipe : SocketPipe) → result ≡ DialAnswer.Dialled pipe
            → IfSome no_talk (λ talk. talk ≡ silence) × (failed_calls pipe ≡ 0) }
        ensures past { no_past ≡ no_past }
        ensures clock { counts_of self.new.clock ≡ counts_of self.old.clock }
        ensures memory { result ≡ DialAnswer.Memory → ⊥ }
        ensures exact { failed_dials self.new ≡ faults_after_dial result (failed_dials self.old) }
        ensures path { path_of self.new ≡ path_of self.old }
        ensures stop_file { stop_file_of self.new ≡ stop_file_of self.old }
    {
        let patience = Arc::try_clone(&self.patience).ok();
        let board = another(self.board.as_ref());
        match connect(self.rt, &self.path, patience, board) {
            Some(pipe) => {
                self.dialled += 1;
                DialAnswer::Dialled(pipe)
            }
            None => {
                self.count_fault();
                DialAnswer::Failed
            }
        }
    }

    /// Closes a connection. It counts a fault exactly where the connection has one. No memory.
    fn close(&mut self, pipe: SocketPipe<'r>)
        ensures told { GrewByTalk no_past no_talk no_past }
        ensures counted { failed_dials self.old ≤ failed_dials self.new }
        ensures faulty { RoseBy (failed_calls pipe.entry) (failed_dials self.old)
            (failed_dials self.new) }
        ensures dialled { opened self.new ≡ opened self.old }
        ensures clock { counts_of self.new.clock ≡ counts_of self.old.clock }
        ensures exact { failed_dials self.new
            ≡ faults_after_close (failed_calls pipe.entry) (failed_dials self.old) }
        ensures path { path_of self.new ≡ path_of self.old }
        ensures stop_file { stop_file_of self.new ≡ stop_file_of self.old }
    {
        if pipe.has_failed() {
            self.count_fault();
        }
    }

    /// The milliseconds of the system's clock that never goes back; where that can't be read, its last reading.
    fn now(&mut self) -> u64 {
        let time = milliseconds(self.rt, self.clock.last);
        self.clock.read(time);
        time
    }

    /// Sleeps for so many milliseconds.
    fn pause(&mut self, ms: u32) {
        thread::sleep(self.rt, Duration::from_millis(u64::from(ms)));
        self.clock.pause(ms);
    }

    /// Whether a file is found at the path of the stop file; never where there is no such path.
    fn asked(&mut self) -> bool
        requires { (counts_of self.old.clock).looks < 2 ^ 62 }
        ensures clock { counts_of self.new.clock ≡ after_asked (counts_of self.old.clock) result }
        ensures past { no_past ≡ no_past }
        ensures dialled { opened self.new ≡ opened self.old }
        ensures faults { failed_dials self.new ≡ failed_dials self.old }
        ensures unasked { stop_file_of self.old ≡ None → IsFalse result }
        ensures path { path_of self.new ≡ path_of self.old }
        ensures stop_file { stop_file_of self.new ≡ stop_file_of self.old }
    {
        let answer = self.patience.finds_stop_file(self.rt);
        self.clock.look(answer);
        answer
    }
}

/// A new connection to the socket at a path, which lasts as long as that patience, and tells that board what time it is; None where it
/// can't be made. No memory.
pub fn connect<'r>(
    rt: &'r HostRuntime,
    path: &Text,
    patience: Option<Arc<Patience>>,
    board: Option<SharedBoard>,
) -> Option<SocketPipe<'r>>
    ensures { IfSome result (λ pipe. failed_calls pipe ≡ 0) }
{
    match UnixStream::connect(rt, path.as_str()) {
        Ok(stream) => Some(SocketPipe::new(rt, stream, patience, board)),
        Err(_) => None,
    }
}

impl<'r> EvenWire for SocketWire<'r> {
    ghost use Rattle.std.specs.Prelude.{refl};

    ghost even = { λ _ _. refl };
}
