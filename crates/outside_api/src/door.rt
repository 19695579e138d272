ghost use Rattle.std.specs.Prelude.{◌≡◌, ℕ, ◌<◌, ◌≤◌, ◌^◌, List, Option, IfSome, length};
ghost use Rattle.outside_api.specs.Doors.{CountsTorn};
ghost use Rattle.outside_api.specs.Pipes.{Talk, silence};
ghost use Rattle.outside_api.specs.Wires.{Dials, GrewByTalk};

use crate::pipe::Pipe;
use crate::wire::DialAnswer;
use std::alloc::Global;

/// Takes connections that peers open.
pub trait Door: Drop {
    type P: Pipe;

    /// What was said on the connections that were closed, where it is told.
    ghost past: { Self → Option (List Talk) };

    /// How many connections were taken.
    ghost dialled: { Self → ℕ };

    /// How many connections with a fault were closed.
    ghost torn: { Self → ℕ };

    /// How often no connection could be taken.
    ghost faults: { Self → ℕ };

    /// Takes the next connection, on which nothing was said yet.
    fn accept(&mut self, alloc: Global) -> DialAnswer<Self::P>
        requires { dialled self.old < 2 ^ 62 }
        ensures counted { faults self.old ≤ faults self.new }
        ensures answer { Dials (faults self.old) (faults self.new) (dialled self.old)
            (dialled self.new) result }
        ensures fresh { (pipe : Self.P) → result ≡ DialAnswer.Dialled pipe
            → IfSome (Self.P.talk pipe) (λ talk. talk ≡ silence) × (Self.P.faults pipe ≡ 0) }
        ensures past { past self.new ≡ past self.old }
        ensures torn { torn self.new ≡ torn self.old };

    /// Takes a connection back, with what was said on it. Its faults count as those of the connection, and not of the door. No
    /// memory.
    fn close(&mut self, pipe: Self::P)
        requires taken { IfSome (past self.old) (λ talks. length talks < dialled self.old) }
        requires few { torn self.old < 2 ^ 62 }
        ensures told { GrewByTalk (past self.old) (Self.P.talk pipe) (past self.new) }
        ensures torn { CountsTorn (Self.P.faults pipe) (torn self.old) (torn self.new) }
        ensures dialled { dialled self.new ≡ dialled self.old }
        ensures faults { faults self.new ≡ faults self.old };
}
