use outside_files::{MemorySink, Sink, SinkAnswer};

/// A sink in memory that takes at most so many bytes of each piece.
#[derive(Drop)]
pub struct PieceSink {
    sink: MemorySink,
    most: usize,
}

impl PieceSink {
    /// A sink that takes so much of each piece, but at least one byte. No memory.
    pub fn new(sink: MemorySink, most: usize) -> PieceSink {
        PieceSink { sink, most }
    }

    /// What was written. No memory.
    pub fn written(&self) -> &[u8] {
        self.sink.written()
    }
}

impl Sink for PieceSink {
    ghost written = { λ by_pieces. ⟦<MemorySink as Sink>⟧.written by_pieces.sink };

    ghost faults = { λ by_pieces. ⟦<MemorySink as Sink>⟧.faults by_pieces.sink };

    fn write(&mut self, piece: &[u8]) -> SinkAnswer {
        let taken = piece.len().min(self.most.max(1));
        self.sink.write(&piece[..taken])
    }
}
