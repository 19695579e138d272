ghost use Rattle.std.specs.Prelude.{◌≤◌, None, length};

use case_files::{Fields, Reading};
use outside_api::{Pipe, PipeAnswer, SinkAnswer};
use tree_base::List;

/// A connection in memory, on which bytes come in pieces, and whose chosen reads fail. It ends behind its bytes.
#[derive(Drop)]
pub(crate) struct CasePipe {
    bytes: List<u8>,
    /// How many of them came.
    came: usize,
    /// How many bytes come at once, the last number again and again; all that there is room for where there is none.
    pieces: List<u64>,
    /// The numbers of the reads that fail, from 1.
    failing: List<u64>,
    reads: u64,
    failed: u64,
    ghost within: { came ≤ length bytes },
}

impl CasePipe {
    /// The connection of a case: the bytes under the key of its call, `pieces` and `failing_reads`.
    pub(crate) fn of_case(reading: &mut Reading, fields: &Fields, call: &str) -> CasePipe {
        CasePipe {
            bytes: reading.bytes_at(fields, call),
            came: 0,
            pieces: reading.numbers(fields, "pieces"),
            failing: reading.numbers(fields, "failing_reads"),
            reads: 0,
            failed: 0,
        }
    }

    /// How many bytes come in all. No memory.
    pub(crate) fn length(&self) -> usize {
        self.bytes.len()
    }

    /// How often it was read. No memory.
    pub(crate) fn reads(&self) -> u64 {
        self.reads
    }

    /// How many bytes come at most in this read.
    fn piece(&self) -> usize {
        let pieces = self.pieces.as_slice();
        let at = self.reads.saturating_sub(1) as usize;
        match pieces.get(at).or(pieces.last()) {
            Some(piece) => *piece as usize,
            None => usize::MAX,
        }
    }
}

impl Pipe for CasePipe {
    ghost talk = { λ _. None };

    ghost faults = { λ pipe. pipe.failed };

    fn write(&mut self, piece: &[u8]) -> SinkAnswer {
        SinkAnswer::Took(piece.len())
    }

    fn read(&mut self, room: &mut [u8]) -> PipeAnswer {
        self.reads = self.reads.saturating_add(1);
        if self.failing.as_slice().contains(&self.reads) {
            self.failed = self.failed.saturating_add(1);
            return PipeAnswer::Failed;
        }
        let most = self.piece().min(room.len());
        let left = self.bytes.as_slice().split_at(self.came).1;
        let count = left.len().min(most);
        room[..count].copy_from_slice(&left[..count]);
        self.came += count;
        PipeAnswer::Got(count)
    }
}
