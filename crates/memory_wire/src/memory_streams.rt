ghost use Rattle.std.specs.Prelude.{◌≡◌, ◌≤◌, ◌<◌, ◌^◌, [], Some, IfSome, length};
ghost use Rattle.outside_api.specs.Pipes.{silence};
ghost use Rattle.outside_api.specs.Plugs.{Adds};
ghost use Rattle.outside_api.specs.Wires.{Dials, GrewByTalk, RoseBy};
ghost use Rattle.memory_wire.specs.PipesInMemory.{failed_calls, talk_of};
ghost use Rattle.memory_wire.specs.StreamsInMemory.{asked_of, opened_of, talks_of};

use crate::counting::count_fault;
use crate::memory_pipe::MemoryPipe;
use crate::memory_wire::MemoryWire;
use outside_api::{DialAnswer, Target, Wire, note_stream};
use std::alloc::Global;
use tree_base::List;

/// The streams of a plug in memory: the connections of a wire, in order, and the Engines to which it was asked for streams. The
/// plug's count of faults is its own.
#[derive(Drop)]
pub struct MemoryStreams {
    wire: MemoryWire,
    asked: List<Target>,
}

impl MemoryStreams {
    /// Streams over the connections of a wire, for none of which it was asked yet. No memory.
    pub fn new(alloc: Global, wire: MemoryWire) -> MemoryStreams
        ensures asked { asked_of result ≡ [] }
        ensures opened { opened_of result ≡ ⟦<MemoryWire as Wire>⟧.dialled wire }
        ensures talks { Some (talks_of result) ≡ ⟦<MemoryWire as Wire>⟧.past wire }
    {
        MemoryStreams {
            wire,
            asked: List::new(alloc),
        }
    }

    /// No stream. No memory.
    pub fn none(alloc: Global) -> MemoryStreams
        ensures asked { asked_of result ≡ [] }
        ensures opened { opened_of result ≡ 0 }
        ensures talks { Some (talks_of result) ≡ Some [] }
    {
        let wire = MemoryWire::new(alloc, List::new(alloc), List::new(alloc));
        MemoryStreams::new(alloc, wire)
    }

    /// Opens the next stream, whatever the target. Failed where there is none, or the wire's dial is to fail: then a fault is
    /// counted.
    pub fn open(
        &mut self,
        alloc: Global,
        target: &Target,
        faults: &mut u64,
    ) -> DialAnswer<MemoryPipe>
        requires { opened_of self.old < 2 ^ 62 }
        ensures counted { faults.old ≤ faults.new }
        ensures answer { Dials faults.old faults.new (opened_of self.old) (opened_of self.new)
            result }
        ensures asked { Adds (asked_of self.old) target.now (asked_of self.new) result }
        ensures fresh { (pipe : _) → result ≡ DialAnswer.Dialled pipe
            → IfSome (Some (talk_of pipe)) (λ talk. talk ≡ silence) × (failed_calls pipe ≡ 0) }
        ensures talks { Some (talks_of self.new) ≡ Some (talks_of self.old) }
    {
        if note_stream(alloc, &mut self.asked, target).is_err() {
            return DialAnswer::Memory;
        }
        match self.wire.dial(alloc) {
            DialAnswer::Dialled(stream) => DialAnswer::Dialled(stream),
            DialAnswer::Failed => {
                count_fault(faults);
                DialAnswer::Failed
            }
            DialAnswer::Memory => DialAnswer::Memory,
        }
    }

    /// Takes a stream back, with what was said on it. Where that has a fault, one is counted. No memory.
    pub fn close(&mut self, stream: MemoryPipe, faults: &mut u64)
        requires { length (talks_of self.old) < opened_of self.old }
        ensures told { GrewByTalk (Some (talks_of self.old)) (Some (talk_of stream))
            (Some (talks_of self.new)) }
        ensures counted { faults.old ≤ faults.new }
        ensures faulty { RoseBy (failed_calls stream) faults.old faults.new }
        ensures asked { asked_of self.new ≡ asked_of self.old }
        ensures opened { opened_of self.new ≡ opened_of self.old }
    {
        if stream.has_failed() {
            count_fault(faults);
        }
        self.wire.close(stream);
    }
}
