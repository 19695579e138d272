ghost use Rattle.std.specs.Prelude.{◌≡◌, ◌<◌, ◌↔◌, [], IsTrue, Some, map};
ghost use Rattle.memory_wire.specs.DoorsInMemory.{failing_takings, faults_of, next_callers};

use crate::counting::count_fault;
use crate::memory_pipe::MemoryPipe;
use crate::memory_wire::MemoryWire;
use outside_api::{DialAnswer, Door, Wire};
use std::alloc::Global;
use tree_base::List;

/// A door in memory, at which told connections come in order; a further taking fails, and so do those with told numbers, from 1.
#[derive(Drop)]
pub struct MemoryDoor {
    wire: MemoryWire,
    torn: u64,
    failed: u64,
}

impl MemoryDoor {
    ghost use Rattle.memory_wire.specs.PipesInMemory.{talk_of};

    /// A door at which these connections come, and of whose takings those with these numbers, from 1, fail. No memory.
    pub fn new(alloc: Global, pipes: List<MemoryPipe>, fails: List<u64>) -> MemoryDoor
        ensures pipes { next_callers result ≡ pipes }
        ensures fails { failing_takings result ≡ fails }
        ensures past { ⟦<MemoryDoor as Door>⟧.past result ≡ Some [] }
        ensures dialled { ⟦<MemoryDoor as Door>⟧.dialled result ≡ 0 }
        ensures torn { ⟦<MemoryDoor as Door>⟧.torn result ≡ 0 }
        ensures faults { ⟦<MemoryDoor as Door>⟧.faults result ≡ 0 }
    {
        MemoryDoor {
            wire: MemoryWire::new(alloc, pipes, fails),
            torn: 0,
            failed: 0,
        }
    }

    /// The connections that were closed, in order. No memory.
    pub fn closed(&self) -> &[MemoryPipe]
        ensures { ⟦<MemoryDoor as Door>⟧.past self.now ≡ Some (map talk_of result.now) }
    {
        self.wire.closed()
    }

    /// Whether no connection could be taken at some time. No memory.
    pub(crate) fn has_failed(&self) -> bool
        ensures { IsTrue result ↔ (0 < faults_of self.now) }
    {
        self.failed > 0
    }
}

impl Door for MemoryDoor {
    type P = MemoryPipe;

    ghost use Rattle.memory_wire.specs.DoorsInMemory.{past_of, taken_of, torn_of};

    ghost past = { λ door. Some (past_of door) };

    ghost dialled = { λ door. taken_of door };

    ghost torn = { λ door. torn_of door };

    ghost faults = { λ door. faults_of door };

    fn accept(&mut self, alloc: Global) -> DialAnswer<MemoryPipe> {
        match self.wire.dial(alloc) {
            DialAnswer::Dialled(pipe) => DialAnswer::Dialled(pipe),
            DialAnswer::Failed => {
                count_fault(&mut self.failed);
                DialAnswer::Failed
            }
            DialAnswer::Memory => DialAnswer::Memory,
        }
    }

    fn close(&mut self, pipe: MemoryPipe) {
        if pipe.has_failed() {
            self.torn += 1;
        }
        self.wire.close(pipe);
    }
}
