ghost use Rattle.std.specs.Prelude.{◌≡◌, [], ◌+◌, ◌<◌, ◌≤◌, ◌^◌, ◌++◌, ◌==◌, ◌&&◌, OnErr, OnOk, drop, false, length, not, take};
ghost use Rattle.http_response.specs.Hearing.{Hears};

use crate::response::ResponseEnd;
use engine_types::WireEnd;
use outside_api::{Pipe, PipeAnswer};
use std::alloc::Global;
use tree_base::{List, Memory};

/// How many bytes are read at once.
const PIECE: usize = 16384;

/// The bytes that were read of a connection and that nothing was made of yet.
#[derive(Drop)]
pub(crate) struct Stock {
    bytes: List<u8>,
    /// How many of them are used up.
    used: usize,
    /// How many bytes were read before these, or the greatest number of 64 bits where there were more.
    before: u64,
    /// Whether the connection ended behind them.
    ended: bool,
    ghost within: { used ≤ length bytes },
}

impl Stock {
    ghost use Rattle.http_response.specs.Stocks.{FillsBy, ReadiesBy, ReadsOnBy, left, place};

    /// Nothing was read yet. No memory.
    pub(crate) fn new(alloc: Global) -> Stock
        ensures left { left result ≡ [] }
        ensures place { place result ≡ 0 }
        ensures ended { result.ended ≡ false }
    {
        Stock {
            bytes: List::new(alloc),
            used: 0,
            before: 0,
            ended: false,
        }
    }

    /// The bytes that are left. No memory.
    pub(crate) fn left(&self) -> &[u8]
        ensures { result.now ≡ left self.now }
    {
        self.bytes.as_slice().split_at(self.used).1
    }

    /// How many bytes of the connection stand before those that are left. No memory.
    pub(crate) fn place(&self) -> u64
        ensures { place self.now < 2 ^ 64 → result ≡ place self.now }
    {
        self.before.saturating_add(self.used as u64)
    }

    /// Whether the connection ended. No memory.
    pub(crate) fn ended(&self) -> bool
        ensures { result ≡ self.now.ended }
    {
        self.ended
    }

    /// Uses so many of the bytes that are left up. No memory.
    pub(crate) fn use_up(&mut self, count: usize)
        requires { count ≤ length (left self.old) }
        ensures left { left self.new ≡ drop count (left self.old) }
        ensures place { place self.new ≡ place self.old + count }
        ensures ended { self.new.ended ≡ self.old.ended }
    {
        let behind = self.left().len() - count;
        self.used = self.bytes.len() - behind;
    }

    /// Reads the next piece, behind the bytes that are left, or finds the end.
    pub(crate) fn fill<P: Pipe>(&mut self, alloc: Global, pipe: &mut P) -> Result<(), ResponseEnd>
        ensures counted { P.faults pipe.old ≤ P.faults pipe.new }
        ensures fills { Hears (P.talk pipe.old) (P.talk pipe.new)
            (FillsBy self.old self.new (P.faults pipe.old) (P.faults pipe.new) result) }
    {
        let Ok(()) = self.shed(alloc) else {
            return Err(ResponseEnd::Memory);
        };
        let mut room = [0u8; PIECE];
        match pipe.read(&mut room) {
            PipeAnswer::Got(0) => {
                self.ended = true;
                Ok(())
            }
            PipeAnswer::Got(count) => match self.bytes.extend_from_slice(room.split_at(count).0) {
                Ok(()) => Ok(()),
                Err(Memory) => Err(ResponseEnd::Memory),
            },
            PipeAnswer::Failed => Err(ResponseEnd::Wire(WireEnd::Fault)),
        }
    }

    /// Reads the next piece where more has to come: where the end was found before, it has ended early.
    pub(crate) fn read_on<P: Pipe>(
        &mut self,
        alloc: Global,
        pipe: &mut P,
    ) -> Result<(), ResponseEnd>
        ensures counted { P.faults pipe.old ≤ P.faults pipe.new }
        ensures reads { Hears (P.talk pipe.old) (P.talk pipe.new)
            (ReadsOnBy self.old self.new (P.faults pipe.old) (P.faults pipe.new) result) }
    {
        if self.ended {
            return Err(ResponseEnd::Wire(WireEnd::Ended));
        }
        self.fill(alloc, pipe)
    }

    /// How many bytes are left, where a piece is read if there are none; none only where the connection ended.
    pub(crate) fn ready<P: Pipe>(&mut self, alloc: Global, pipe: &mut P) -> Result<u64, ResponseEnd>
        ensures counted { P.faults pipe.old ≤ P.faults pipe.new }
        ensures readies { Hears (P.talk pipe.old) (P.talk pipe.new)
            (ReadiesBy self.old self.new (P.faults pipe.old) (P.faults pipe.new) result) }
    {
        if self.is_dry() {
            self.fill(alloc, pipe)?;
            return Ok(self.left().len() as u64);
        }
        Ok(self.left().len() as u64)
    }

    /// Whether nothing is left, and more may come. No memory.
    fn is_dry(&self) -> bool
        ensures { result ≡ (length (left self.now) == 0 && not self.now.ended) }
    {
        self.left().is_empty() && !self.ended
    }

    /// Puts so many of the bytes that are left last, and uses them up.
    pub(crate) fn give(&mut self, to: &mut List<u8>, count: usize) -> Result<(), Memory>
        requires { count ≤ length (left self.old) }
        ensures given { OnOk result (to.new ≡ to.old ++ take count (left self.old)) }
        ensures left { OnOk result (left self.new ≡ drop count (left self.old)) }
        ensures place { OnOk result (place self.new ≡ place self.old + count) }
        ensures ended { self.new.ended ≡ self.old.ended }
        ensures kept { OnErr result (to.new ≡ to.old) }
    {
        to.extend_from_slice(self.left().split_at(count).0)?;
        self.use_up(count);
        Ok(())
    }

    /// Gives the room of the bytes that are used up back.
    fn shed(&mut self, alloc: Global) -> Result<(), Memory>
        ensures left { left self.new ≡ left self.old }
        ensures place { place self.old < 2 ^ 64 → place self.new ≡ place self.old }
        ensures ended { self.new.ended ≡ self.old.ended }
        ensures none_used { OnOk result (self.new.used ≡ 0) }
    {
        if self.used > 0 {
            let mut left = List::new(alloc);
            left.extend_from_slice(self.left())?;
            self.before = self.place();
            self.used = 0;
            self.bytes = left;
        }
        Ok(())
    }
}
