ghost use Rattle.std.specs.Prelude.{◌≡◌, ◌≤◌, ◌+◌, ◌<◌, ◌^◌, [], IfSome, Some, length, map};
ghost use Rattle.outside_api.specs.Clock.{new_clock};
ghost use Rattle.memory_wire.specs.PipesInMemory.{failed_calls, talk_of};
ghost use Rattle.outside_api.specs.Pipes.{silence};
ghost use Rattle.outside_api.specs.Wires.{Dials};

use crate::memory_pipe::MemoryPipe;
use outside_api::{DialAnswer, MemoryClock, Pipe, Wire};
use outside_files::Failing;
use std::alloc::Global;
use tree_base::{List, ReservedList};
use wires::EvenWire;

/// A wire of connections in memory, which dials them in order; a further dial fails, and so do the dials with told numbers,
/// from 1. It is never asked to stop, and its clock rises by its pauses.
#[derive(Drop)]
pub struct MemoryWire {
    pipes: List<MemoryPipe>,
    closed: ReservedList<MemoryPipe>,
    dialled: u64,
    failing: Failing,
    clock: MemoryClock,
    ghost within: { length closed.items ≤ dialled },
    ghost reserved: { dialled ≤ length closed.items + closed.spare },
}

impl MemoryWire {
    ghost use Rattle.memory_wire.specs.WiresInMemory.{failing_dials, next_pipes};

    /// A wire of these connections, of whose dials those with these numbers, from 1, fail. No memory.
    pub fn new(alloc: Global, pipes: List<MemoryPipe>, fails: List<u64>) -> MemoryWire
        ensures pipes { next_pipes result ≡ pipes }
        ensures fails { failing_dials result ≡ fails }
        ensures past { ⟦<MemoryWire as Wire>⟧.past result ≡ Some [] }
        ensures dialled { ⟦<MemoryWire as Wire>⟧.dialled result ≡ 0 }
        ensures faults { ⟦<MemoryWire as Wire>⟧.faults result ≡ 0 }
        ensures clock { ⟦<MemoryWire as Wire>⟧.clock result ≡ new_clock }
    {
        MemoryWire {
            pipes,
            closed: ReservedList::new(alloc),
            dialled: 0,
            failing: Failing::new(fails),
            clock: MemoryClock::new(),
        }
    }

    /// The connections that were closed, in order. No memory.
    pub fn closed(&self) -> &[MemoryPipe]
        ensures { ⟦<MemoryWire as Wire>⟧.past self.now ≡ Some (map talk_of result.now) }
    {
        self.closed.as_slice()
    }
}

impl Wire for MemoryWire {
    type P = MemoryPipe;

    ghost use Rattle.outside_api.specs.ClockCounts.{counts_of};
    ghost use Rattle.memory_wire.specs.WiresInMemory.{DialsNext, closed_pipes, failing_dials, next_dial_fails, next_pipes};
    ghost use Rattle.memory_wire.specs.declared.memory_pipe.MemoryPipe.{MemoryPipe};

    ghost past = { λ wire. Some (map talk_of wire.closed.items) };

    ghost dialled = { λ wire. wire.dialled };

    ghost faults = { λ wire. wire.failing.failed };

    ghost clock = { λ wire. counts_of wire.clock.counts };

    /// Dials the next connection, which begins anew.
    fn dial(&mut self, _alloc: Global) -> DialAnswer<MemoryPipe>
        requires { self.old.dialled < 2 ^ 62 }
        ensures counted { self.old.failing.failed ≤ self.new.failing.failed }
        ensures answer { Dials self.old.failing.failed self.new.failing.failed self.old.dialled
            self.new.dialled result }
        ensures fresh { (pipe : MemoryPipe) → result ≡ DialAnswer.Dialled pipe
            → IfSome (Some (talk_of pipe)) (λ talk. talk ≡ silence) × (failed_calls pipe ≡ 0) }
        ensures past { Some (map talk_of (closed_pipes self.new))
            ≡ Some (map talk_of (closed_pipes self.old)) }
        ensures clock { counts_of self.new.clock.counts ≡ counts_of self.old.clock.counts }
        ensures next { DialsNext (next_dial_fails self.old) (next_pipes self.old)
            (next_pipes self.new) result }
        ensures fails { failing_dials self.new ≡ failing_dials self.old }
    {
        if self.failing.next_fails() {
            return DialAnswer::Failed;
        }
        if self.pipes.is_empty() {
            self.failing.count_fault();
            return DialAnswer::Failed;
        }
        let open = self.dialled - self.closed.len() as u64;
        if self.closed.reserve(open as usize + 1).is_err() {
            return DialAnswer::Memory;
        }
        let mut pipe = self.pipes.remove(0);
        pipe.begin_anew();
        self.dialled += 1;
        DialAnswer::Dialled(pipe)
    }

    fn close(&mut self, pipe: MemoryPipe) {
        if pipe.has_failed() {
            self.failing.count_fault();
        }
        self.closed.push(pipe).unwrap();
    }

    fn now(&mut self) -> u64 {
        self.clock.now()
    }

    fn pause(&mut self, ms: u32) {
        self.clock.pause(ms);
    }

    fn asked(&mut self) -> bool {
        self.clock.look(false);
        false
    }
}

impl EvenWire for MemoryWire {
    ghost use Rattle.std.specs.Prelude.{refl};

    ghost even = { λ _ _. refl };
}
