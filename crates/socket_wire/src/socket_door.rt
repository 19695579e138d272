ghost use Rattle.std.specs.Prelude.{◌≡◌, ◌≤◌, ◌<◌, ◌^◌, ◌↔◌, IfSome, IsTrue, None};
ghost use Rattle.outside_files.specs.Counts.{Rose};
ghost use Rattle.outside_api.specs.Doors.{CountsTorn};
ghost use Rattle.outside_api.specs.Pipes.{silence};
ghost use Rattle.outside_api.specs.Wires.{Dials, GrewByTalk};
ghost use Rattle.socket_wire.specs.DoorsOfSockets.{failed_takings, taken, torn_of};
ghost use Rattle.socket_wire.specs.PipesOfSockets.{failed_calls, no_talk};
ghost use Rattle.socket_wire.specs.WiresOfSockets.{no_past};

use crate::socket_pipe::SocketPipe;
use outside_api::{DialAnswer, Door, Pipe};
use std::alloc::Global;
use std::fs;
use std::io::ErrorKind;
use std::os::unix::fs::FileTypeExt;
use std::os::unix::net::{UnixListener, UnixStream};
use tree_base::Text;

/// A Unix socket at a path, on which the connections of peers are taken in turn. It tells nothing of what was said, and counts its
/// faults: how often no connection could be taken. The socket's file stays when the door is gone, and the next door at that path takes
/// its place.
#[derive(Drop)]
pub struct SocketDoor<'r> {
    rt: &'r HostRuntime,
    listener: UnixListener,
    dialled: u64,
    torn: u64,
    failed: u64,
}

impl<'r> SocketDoor<'r> {
    /// A door at a new socket with this path, which took no connection yet; None where the socket can't be made: the path is empty or
    /// has more than 107 bytes, a file stands there that is no socket, or somebody listens there. No memory.
    pub fn open(rt: &'r HostRuntime, path: &Text) -> Option<SocketDoor<'r>>
        ensures dialled { IfSome result (λ door. taken door ≡ 0) }
        ensures torn { IfSome result (λ door. torn_of door ≡ 0) }
        ensures faults { IfSome result (λ door. failed_takings door ≡ 0) }
    {
        let listener = listen(rt, path.as_str())?;
        Some(SocketDoor {
            rt,
            listener,
            dialled: 0,
            torn: 0,
            failed: 0,
        })
    }

    /// Whether no connection could be taken at some time. No memory.
    pub fn has_failed(&self) -> bool
        ensures { IsTrue result ↔ (0 < failed_takings self.now) }
    {
        self.failed > 0
    }

    /// Counts a fault. The count stands still at the greatest `u64`. No memory.
    fn count_fault(&mut self)
        ensures rose { Rose (failed_takings self.old) (failed_takings self.new) }
        ensures never_falls { failed_takings self.old ≤ failed_takings self.new }
        ensures taken { taken self.new ≡ taken self.old }
        ensures torn { torn_of self.new ≡ torn_of self.old }
    {
        self.failed = self.failed.saturating_add(1);
    }
}

impl<'r> Door for SocketDoor<'r> {
    type P = SocketPipe<'r>;

    ghost use Rattle.socket_wire.specs.declared.socket_pipe.SocketPipe.{SocketPipe};

    ghost past = { λ _. None };

    ghost dialled = { λ door. door.dialled };

    ghost torn = { λ door. door.torn };

    ghost faults = { λ door. door.failed };

    /// Waits for the next connection, and takes it. It counts a fault where that fails. No memory.
    fn accept(&mut self, _alloc: Global) -> DialAnswer<SocketPipe<'r>>
        requires { taken self.old < 2 ^ 62 }
        ensures counted { failed_takings self.old ≤ failed_takings self.new }
        ensures answer { Dials (failed_takings self.old) (failed_takings self.new) (taken self.old)
            (taken self.new) result }
        ensures fresh { (pipe : SocketPipe) → result ≡ DialAnswer.Dialled pipe
            → IfSome no_talk (λ talk. talk ≡ silence) × (failed_calls pipe ≡ 0) }
        ensures past { no_past ≡ no_past }
        ensures torn { torn_of self.new ≡ torn_of self.old }
        ensures memory { result ≡ DialAnswer.Memory → ⊥ }
    {
        match self.listener.accept() {
            Ok((stream, _)) => {
                self.dialled += 1;
                DialAnswer::Dialled(SocketPipe::new(self.rt, stream, None, None))
            }
            Err(_) => {
                self.count_fault();
                DialAnswer::Failed
            }
        }
    }

    /// Closes a connection, and counts it as torn exactly where it has a fault. No memory.
    fn close(&mut self, pipe: SocketPipe<'r>)
        requires few { torn_of self.old < 2 ^ 62 }
        ensures told { GrewByTalk no_past no_talk no_past }
        ensures torn { CountsTorn (failed_calls pipe.entry) (torn_of self.old) (torn_of self.new) }
        ensures dialled { taken self.new ≡ taken self.old }
        ensures faults { failed_takings self.new ≡ failed_takings self.old }
    {
        if pipe.has_failed() {
            self.torn += 1;
        }
    }
}

/// A new socket at a path that listens, also in place of one that was left there; None where it can't be made. No memory.
fn listen(rt: &HostRuntime, path: &str) -> Option<UnixListener> {
    if path.is_empty() {
        // The system would give it a name that nobody knows.
        return None;
    }
    match UnixListener::bind(rt, path) {
        Ok(listener) => Some(listener),
        Err(error) if error.kind() == ErrorKind::AddrInUse && is_left(rt, path) => {
            fs::remove_file(rt, path).ok()?;
            UnixListener::bind(rt, path).ok()
        }
        Err(_) => None,
    }
}

/// Whether a socket stands at a path at which nobody listens, as where a run was killed. No memory.
fn is_left(rt: &HostRuntime, path: &str) -> bool {
    is_socket(rt, path) && refuses(rt, path)
}

/// Whether a socket stands at a path itself, and not behind a link. No memory.
fn is_socket(rt: &HostRuntime, path: &str) -> bool {
    match fs::symlink_metadata(rt, path) {
        Ok(metadata) => metadata.file_type().is_socket(),
        Err(_) => false,
    }
}

/// Whether a connection to the socket at a path is refused since nobody listens there. No memory.
fn refuses(rt: &HostRuntime, path: &str) -> bool {
    match UnixStream::connect(rt, path) {
        Ok(_) => false,
        Err(error) => error.kind() == ErrorKind::ConnectionRefused,
    }
}
