ghost use Rattle.std.specs.Prelude.{◌≡◌, ◌≤◌, ◌<◌, ◌++◌, ◌+◌, [], false, IfOk, IsTrue, ◌↔◌, Some, length, take, drop, vec_len, vec_capacity, if◌then◌else◌};
ghost use Rattle.outside_files.specs.Counts.{one_more};
ghost use Rattle.outside_files.specs.Sinks.{IsWriteOf, taken};
ghost use Rattle.outside_api.specs.Pipes.{IsGotOf, ToldBy, after_read, after_write, silence};

use outside_api::{Pipe, PipeAnswer, SinkAnswer};
use outside_files::Failing;
use std::alloc::Global;
use tree_base::{List, Memory};

/// A connection in memory, which gives told bytes and then ends, and has room for so many bytes that are written.
///
/// Each call takes or gives one piece, of at most the next of the told sizes, and of any size when these are used up; a size
/// of 0 counts as 1. A write past the room takes what fits.
#[derive(Drop)]
pub struct MemoryPipe {
    written: Vec<u8>,
    room: usize,
    gives: List<u8>,
    given: usize,
    ended: bool,
    sizes: List<usize>,
    pieces: usize,
    failing: Failing,
    ghost within: { vec_len written ≤ room },
    ghost reserved: { room ≤ vec_capacity written },
    ghost given_within: { given ≤ length gives },
}

impl MemoryPipe {
    ghost use Rattle.memory_wire.specs.PipesInMemory.{all_gives, all_sizes, bytes_left, calls, failed_calls, failing_calls, next_size, room_of, sizes_left, talk_of};

    /// A connection that gives these bytes in pieces of these sizes, has room for so many that are written, and of whose calls
    /// those with these numbers, from 1, fail.
    pub fn new(
        alloc: Global,
        gives: List<u8>,
        sizes: List<usize>,
        room: usize,
        fails: List<u64>,
    ) -> Result<MemoryPipe, Memory>
        ensures talk { IfOk result (λ pipe. ⟦<MemoryPipe as Pipe>⟧.talk pipe ≡ Some silence) }
        ensures faults { IfOk result (λ pipe. ⟦<MemoryPipe as Pipe>⟧.faults pipe ≡ 0) }
        ensures gives { IfOk result (λ pipe. bytes_left pipe ≡ gives) }
        ensures sizes { IfOk result (λ pipe. sizes_left pipe ≡ sizes) }
        ensures room { IfOk result (λ pipe. room_of pipe ≡ room) }
        ensures fails { IfOk result (λ pipe. failing_calls pipe ≡ fails) }
        ensures calls { IfOk result (λ pipe. calls pipe ≡ 0) }
    {
        Ok(MemoryPipe {
            written: Vec::with_capacity(alloc, room)?,
            room,
            gives,
            given: 0,
            ended: false,
            sizes,
            pieces: 0,
            failing: Failing::new(fails),
        })
    }

    /// What was written. No memory.
    pub fn written(&self) -> &[u8]
        ensures { result.now ≡ (talk_of self.now).written }
    {
        self.written.as_slice()
    }

    /// Whether a call failed. No memory.
    pub(crate) fn has_failed(&self) -> bool
        ensures { IsTrue result ↔ (0 < failed_calls self.now) }
    {
        self.failing.has_failed()
    }

    /// Begins anew: nothing was said on it yet, and no call was made. No memory.
    pub(crate) fn begin_anew(&mut self)
        ensures talk { talk_of self.new ≡ silence }
        ensures faults { failed_calls self.new ≡ 0 }
        ensures gives { bytes_left self.new ≡ all_gives self.old }
        ensures sizes { sizes_left self.new ≡ all_sizes self.old }
        ensures room { room_of self.new ≡ room_of self.old }
        ensures fails { failing_calls self.new ≡ failing_calls self.old }
        ensures calls { calls self.new ≡ 0 }
    {
        self.written.clear();
        self.given = 0;
        self.ended = false;
        self.pieces = 0;
        self.failing.begin_anew();
    }

    /// The size of the next piece. No memory.
    fn next_size(&mut self) -> usize
        ensures size { result ≡ next_size self.old }
        ensures some { 0 < result }
        ensures rest { sizes_left self.new ≡ drop 1 (sizes_left self.old) }
        ensures same { self.new ≡ record self.old { pieces = self.new.pieces } }
    {
        match self.sizes.as_slice().get(self.pieces) {
            Some(size) => {
                self.pieces += 1;
                (*size).max(1)
            }
            None => usize::MAX,
        }
    }
}

impl Pipe for MemoryPipe {
    ghost use Rattle.memory_wire.specs.PipesInMemory.{calls, failed_calls, failing_calls, next_call_fails, read_of, room_of, talk_of, write_of};

    ghost talk = { λ pipe. Some (talk_of pipe) };

    ghost faults = { λ pipe. pipe.failing.failed };

    /// Takes the first bytes of a piece. The call fails exactly where its number is among those that are to. No memory.
    fn write(&mut self, piece: &[u8]) -> SinkAnswer
        ensures counted { failed_calls self.old ≤ failed_calls self.new }
        ensures answer { IsWriteOf piece.now (failed_calls self.old)
            (failed_calls self.new) result }
        ensures told { ToldBy (after_write (take (taken result) piece.now))
            (Some (talk_of self.old)) (Some (talk_of self.new)) }
        ensures exact { result ≡ write_of self.old piece.now }
        ensures room { room_of self.new ≡ room_of self.old }
        ensures fails { failing_calls self.new ≡ failing_calls self.old }
        ensures calls { calls self.new ≡ one_more (calls self.old) }
    {
        if self.failing.next_fails() {
            return SinkAnswer::Failed;
        }
        let size = self.next_size();
        let taken = piece.len().min(size).min(self.room - self.written.len());
        if taken == 0 && !piece.is_empty() {
            self.failing.count_fault();
        }
        self.written.extend_from_slice(&piece[..taken]).unwrap();
        SinkAnswer::Took(taken)
    }

    /// Gives the next bytes, or the end behind all. The call fails exactly where its number is among those that are to. No
    /// memory.
    fn read(&mut self, room: &mut [u8]) -> PipeAnswer
        requires { 0 < length room.old }
        ensures counted { failed_calls self.old ≤ failed_calls self.new }
        ensures answer { IsGotOf (length room.old) (failed_calls self.old)
            (failed_calls self.new) result }
        ensures told { ToldBy (after_read room.new result) (Some (talk_of self.old))
            (Some (talk_of self.new)) }
        ensures exact { result ≡ read_of self.old (length room.old) }
        ensures room { room_of self.new ≡ room_of self.old }
        ensures fails { failing_calls self.new ≡ failing_calls self.old }
        ensures calls { calls self.new ≡ one_more (calls self.old) }
    {
        if self.failing.next_fails() {
            return PipeAnswer::Failed;
        }
        let size = self.next_size();
        let left = self.gives.as_slice().split_at(self.given).1;
        let count = left.len().min(room.len()).min(size);
        room[..count].copy_from_slice(&left[..count]);
        self.given += count;
        if count == 0 {
            self.ended = true;
        }
        PipeAnswer::Got(count)
    }
}
