ghost use Rattle.std.specs.Prelude.{◌≡◌};
ghost use Rattle.ledger_turns.specs.Calls.{IsOpen};

use crate::calls::{LedgerAnswer, LedgerCall, make};
use engine_types::Entry;
use ledger_core::Ledger;
use std::alloc::Global;
use std::marker::Model;
use turn_ledger::Serial;

/// A ledger that workers share, with the allocator of its grants. Contracts see the run; its journal is legal.
#[derive(Drop)]
pub struct SharedLedger {
    ledger: Ledger,
    alloc: Global,
}

impl Model for SharedLedger {
    ghost use Rattle.journal_laws.specs.Courses.{Course};
    ghost use Rattle.ledger_turns.specs.Calls.{IsOpen};

    ghost Value = { Course };

    ghost view = { λ s. s.ledger };

    ghost invariant = { λ s. IsOpen s.ledger };
}

impl SharedLedger {
    /// The ledger of a run whose observation ended well, and that has at most 16 workers. No memory.
    pub fn new(alloc: Global, ledger: Ledger) -> SharedLedger
        requires { IsOpen ledger }
        ensures { result ≡ ledger }
    {
        SharedLedger { ledger, alloc }
    }

    /// The ledger itself, whose journal is legal still. No memory.
    pub fn into_ledger(self) -> Ledger
        ensures same { result ≡ self }
        ensures shared { IsOpen result }
    {
        self.ledger
    }
}

impl Serial for SharedLedger {
    type Call = LedgerCall;

    type Answer = LedgerAnswer;

    type Entry = Entry;

    type Origin = SharedLedger;

    ghost use Rattle.std.specs.Prelude.{ℕ};
    ghost use Rattle.ledger_turns.specs.Calls.{Gives, MayCall, most, most_small, opening};
    ghost use Rattle.worker_laws.specs.Own.{worker_of};

    ghost journal = { λ run. run.journal };

    ghost origin = { λ run. opening run };

    ghost by = { λ e. worker_of e };

    ghost allows = { λ opened w mine call. MayCall opened w mine call };

    ghost gives = { λ opened before w call answer e. Gives opened before w call answer e };

    ghost most = { most };

    fn turn(&mut self, who: u32, call: LedgerCall) -> LedgerAnswer {
        make(&mut self.ledger, self.alloc, who, call)
    }

    ghost small = { most_small };
}
