ghost use Rattle.std.specs.Prelude.{None};

use crate::sink::{Sink, SinkAnswer};
use std::io::Write;

/// A stream that is written to, as standard output. It tells no content, and counts each write that failed.
#[derive(Drop)]
pub struct OutSink<W: Write + Drop> {
    stream: W,
    failed: u64,
}

impl<W: Write + Drop> OutSink<W> {
    /// Writes to a stream. No memory.
    pub fn new(stream: W) -> OutSink<W> {
        OutSink { stream, failed: 0 }
    }
}

impl<W: Write + Drop> Sink for OutSink<W> {
    ghost written = { λ _. None };

    ghost faults = { λ sink. sink.failed };

    fn write(&mut self, piece: &[u8]) -> SinkAnswer {
        match self.stream.write(piece) {
            Ok(taken) => {
                if taken == 0 && !piece.is_empty() {
                    self.failed = self.failed.saturating_add(1);
                }
                SinkAnswer::Took(taken)
            }
            Err(_) => {
                self.failed = self.failed.saturating_add(1);
                SinkAnswer::Failed
            }
        }
    }
}
