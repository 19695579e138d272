ghost use Rattle.std.specs.Prelude.{◌≡◌, [], ◌≤◌, false};
ghost use Rattle.request_reading.specs.Hearing.{Hears};

use crate::received::RequestEnd;
use engine_types::WireEnd;
use outside_api::{Pipe, PipeAnswer};
use std::alloc::Global;
use tree_base::{List, Memory};

/// How many bytes are read at once.
const PIECE: usize = 16384;

/// The bytes that were read of a connection.
#[derive(Drop)]
pub(crate) struct Stock {
    pub(crate) bytes: List<u8>,
    /// Whether the connection ended behind them.
    pub(crate) ended: bool,
}

impl Stock {
    ghost use Rattle.request_reading.specs.Stocks.{FillsToBy, ReadsOnBy};

    /// Nothing was read yet. No memory.
    pub(crate) fn new(alloc: Global) -> Stock
        ensures bytes { result.bytes ≡ [] }
        ensures ended { result.ended ≡ false }
    {
        Stock {
            bytes: List::new(alloc),
            ended: false,
        }
    }

    /// Reads the next piece, or finds the end; where it was found before, the connection has ended early.
    pub(crate) fn read_on<P: Pipe>(&mut self, pipe: &mut P) -> Result<(), RequestEnd>
        ensures counted { P.faults pipe.old ≤ P.faults pipe.new }
        ensures reads { Hears (P.talk pipe.old) (P.talk pipe.new)
            (ReadsOnBy self.old self.new (P.faults pipe.old) (P.faults pipe.new) result) }
    {
        if self.ended {
            return Err(RequestEnd::Wire(WireEnd::Ended));
        }
        let mut room = [0u8; PIECE];
        match pipe.read(&mut room) {
            PipeAnswer::Got(0) => {
                self.ended = true;
                Ok(())
            }
            PipeAnswer::Got(count) => match self.bytes.extend_from_slice(room.split_at(count).0) {
                Ok(()) => Ok(()),
                Err(Memory) => Err(RequestEnd::Memory),
            },
            PipeAnswer::Failed => Err(RequestEnd::Wire(WireEnd::Fault)),
        }
    }

    /// Reads until so many bytes were read.
    pub(crate) fn fill_to<P: Pipe>(&mut self, pipe: &mut P, end: usize) -> Result<(), RequestEnd>
        ensures counted { P.faults pipe.old ≤ P.faults pipe.new }
        ensures fills { Hears (P.talk pipe.old) (P.talk pipe.new)
            (FillsToBy end self.old self.new (P.faults pipe.old) (P.faults pipe.new) result) }
    {
        'filling: while self.bytes.len() < end {
            self.read_on(pipe)?;
        }
        Ok(())
    }
}
