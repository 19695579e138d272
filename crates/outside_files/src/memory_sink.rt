ghost use Rattle.std.specs.Prelude.{◌≡◌, ◌≤◌, Some, [], IfOk, take, vec_len, vec_capacity, if◌then◌else◌};
ghost use Rattle.outside_files.specs.Counts.{one_more};
ghost use Rattle.outside_files.specs.Sinks.{IsWriteOf, GrewBy, taken};

use crate::failing::Failing;
use crate::sink::{Sink, SinkAnswer};
use std::alloc::Global;
use tree_base::{List, Memory};

/// A sink in memory, with room for so many bytes, of which chosen writes fail.
#[derive(Drop)]
pub struct MemorySink {
    bytes: Vec<u8>,
    room: usize,
    failing: Failing,
    ghost within: { vec_len bytes ≤ room },
    ghost reserved: { room ≤ vec_capacity bytes },
}

impl MemorySink {
    ghost use Rattle.outside_files.specs.SinksInMemory.{failing_writes, room_of, writes};

    /// An empty sink with its whole room, of which the writes with these numbers, from 1, fail. A write past
    /// the room takes what fits.
    pub fn new(alloc: Global, room: usize, fails: List<u64>) -> Result<MemorySink, Memory>
        ensures told { IfOk result (λ sink. ⟦<MemorySink as Sink>⟧.written sink ≡ Some []) }
        ensures room { IfOk result (λ sink. room_of sink ≡ room) }
        ensures fails { IfOk result (λ sink. failing_writes sink ≡ fails) }
        ensures writes { IfOk result (λ sink. writes sink ≡ 0) }
        ensures faults { IfOk result (λ sink. ⟦<MemorySink as Sink>⟧.faults sink ≡ 0) }
    {
        Ok(MemorySink {
            bytes: Vec::with_capacity(alloc, room)?,
            room,
            failing: Failing::new(fails),
        })
    }

    /// What was written. No memory.
    pub fn written(&self) -> &[u8]
        ensures { ⟦<MemorySink as Sink>⟧.written self.now ≡ Some result.now }
    {
        self.bytes.as_slice()
    }
}

impl Sink for MemorySink {
    ghost use Rattle.outside_files.specs.SinksInMemory.{answer_of, bytes_of, failed_writes, failing_writes, is_fault, room_of, writes};

    ghost written = { λ sink. Some sink.bytes.items };

    ghost faults = { λ sink. sink.failing.failed };

    /// Writes what fits of a piece; the write fails exactly where its number is among those that are to. No memory.
    fn write(&mut self, piece: &[u8]) -> SinkAnswer
        ensures counted { failed_writes self.old ≤ failed_writes self.new }
        ensures answer { IsWriteOf piece.now
            (failed_writes self.old) (failed_writes self.new) result }
        ensures told { GrewBy (Some (bytes_of self.old))
            (take (taken result) piece.now) (Some (bytes_of self.new)) }
        ensures exact { result ≡ answer_of self.old piece.now }
        ensures room { room_of self.new ≡ room_of self.old }
        ensures fails { failing_writes self.new ≡ failing_writes self.old }
        ensures writes { writes self.new ≡ one_more (writes self.old) }
        ensures faults { failed_writes self.new ≡ (if is_fault self.old piece.now
            then one_more (failed_writes self.old) else failed_writes self.old) }
    {
        if self.failing.next_fails() {
            return SinkAnswer::Failed;
        }
        let taken = piece.len().min(self.room - self.bytes.len());
        if taken == 0 && !piece.is_empty() {
            self.failing.count_fault();
        }
        self.bytes.extend_from_slice(&piece[..taken]).unwrap();
        SinkAnswer::Took(taken)
    }
}
