use crate::shared_board::{SharedBoard, clear};
use outside_files::{Sink, SinkAnswer};
use std::sync::Wait;

/// A sink before whose writes the rows of a board, if there is one, and their line on the terminal are taken away. It is in all what
/// the sink is.
#[derive(Drop)]
pub struct ClearedSink<'r, R, S> {
    host: &'r HostRuntime,
    rt: &'r R,
    board: Option<SharedBoard>,
    sink: S,
}

impl<'r, R, S: Sink> ClearedSink<'r, R, S> {
    /// Writes to a sink. No memory.
    pub fn new(
        host: &'r HostRuntime,
        rt: &'r R,
        board: Option<SharedBoard>,
        sink: S,
    ) -> ClearedSink<'r, R, S> {
        ClearedSink {
            host,
            rt,
            board,
            sink,
        }
    }
}

impl<'r, R: Wait, S: Sink> Sink for ClearedSink<'r, R, S> {
    ghost written = { λ cleared. S.written cleared.sink };

    ghost faults = { λ cleared. S.faults cleared.sink };

    fn write(&mut self, piece: &[u8]) -> SinkAnswer {
        clear(self.host, self.rt, self.board.as_ref());
        self.sink.write(piece)
    }
}
