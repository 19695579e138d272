ghost use Rattle.std.specs.Prelude.{◌≡◌, ℕ, ◌+◌, ◌<◌, ◌≤◌, ◌^◌, ◌↔◌, List, [], ◌∷◌, ◌++◌, length, Option, Some, IfSome, IsSomeAnd, IsTrue};
ghost use Rattle.outside_api.specs.Clock.{Clock, after_now, after_pause, after_asked};
ghost use Rattle.outside_files.specs.Counts.{Rose};
ghost use Rattle.outside_api.specs.Pipes.{Talk, silence};
ghost use Rattle.outside_api.specs.Wires.{Dials, GrewByTalk, RoseBy};

use crate::pipe::Pipe;
use std::alloc::Global;

/// What a dial answers.
#[derive(Drop)]
pub enum DialAnswer<T> {
    Dialled(T),
    Failed,
    Memory,
}

/// Opens connections for one worker.
pub trait Wire: Drop {
    type P: Pipe;

    /// What was said on the connections that were closed, where it is told.
    ghost past: { Self → Option (List Talk) };

    /// How many connections were opened.
    ghost dialled: { Self → ℕ };

    /// How many dials failed, and how many connections with a fault were closed.
    ghost faults: { Self → ℕ };

    ghost clock: { Self → Clock };

    /// Opens a connection, on which nothing was said yet.
    fn dial(&mut self, alloc: Global) -> DialAnswer<Self::P>
        requires { dialled self.old < 2 ^ 62 }
        ensures counted { faults self.old ≤ faults self.new }
        ensures answer { Dials (faults self.old) (faults self.new) (dialled self.old)
            (dialled self.new) result }
        ensures fresh { (pipe : Self.P) → result ≡ DialAnswer.Dialled pipe
            → IfSome (Self.P.talk pipe) (λ talk. talk ≡ silence) × (Self.P.faults pipe ≡ 0) }
        ensures past { past self.new ≡ past self.old }
        ensures clock { clock self.new ≡ clock self.old };

    /// Takes a connection back, with what was said on it. No memory.
    fn close(&mut self, pipe: Self::P)
        requires { IfSome (past self.old) (λ talks. length talks < dialled self.old) }
        ensures told { GrewByTalk (past self.old) (Self.P.talk pipe) (past self.new) }
        ensures counted { faults self.old ≤ faults self.new }
        ensures faulty { RoseBy (Self.P.faults pipe) (faults self.old) (faults self.new) }
        ensures dialled { dialled self.new ≡ dialled self.old }
        ensures clock { clock self.new ≡ clock self.old };

    /// The time in milliseconds. No memory.
    fn now(&mut self) -> u64
        requires { (clock self.old).readings < 2 ^ 62 }
        ensures clock { clock self.new ≡ after_now (clock self.old) result }
        ensures past { past self.new ≡ past self.old }
        ensures dialled { dialled self.new ≡ dialled self.old }
        ensures faults { faults self.new ≡ faults self.old };

    /// Pauses for so many milliseconds. No memory.
    fn pause(&mut self, ms: u32)
        requires { (clock self.old).paused < 2 ^ 62 }
        ensures clock { clock self.new ≡ after_pause (clock self.old) ms }
        ensures past { past self.new ≡ past self.old }
        ensures dialled { dialled self.new ≡ dialled self.old }
        ensures faults { faults self.new ≡ faults self.old };

    /// Whether the worker is asked to stop. No memory.
    fn asked(&mut self) -> bool
        requires { (clock self.old).looks < 2 ^ 62 }
        ensures clock { clock self.new ≡ after_asked (clock self.old) result }
        ensures past { past self.new ≡ past self.old }
        ensures dialled { dialled self.new ≡ dialled self.old }
        ensures faults { faults self.new ≡ faults self.old };
}
