ghost use Rattle.std.specs.Prelude.{◌≡◌, ℕ, ◌+◌, ◌<◌, ◌^◌, List, ◌++◌, ◌∷◌, length, IfOk, OnOk};
ghost use Rattle.event_watch.specs.declared.event.Event.{Event};
ghost use Rattle.event_watch.specs.Reading.{Begins, EndsBy, StepsBy, longer};

use crate::event::{Event, EventRefusal, LineFault};
use crate::lines::{Line, line_of};
use std::alloc::Global;
use std::collections::VecDeque;
use tree_base::limits::MOST_EVENT_BYTES;
use tree_base::{List, Memory};

/// The line that is being read, behind whole lines.
#[derive(Drop)]
pub(crate) struct OpenLine {
    bytes: List<u8>,
    /// The place of its first byte in the body, or the greatest number of 64 bits where that is past it.
    at: u64,
    /// The first line that the stream can't have.
    fault: Option<LineFault>,
}

impl OpenLine {
    ghost use Rattle.std.specs.Prelude.{[], None};

    /// The first line, of which nothing was read. No memory.
    pub(crate) fn new(alloc: Global) -> OpenLine
        ensures bytes { result.bytes ≡ [] }
        ensures at { result.at ≡ 0 }
        ensures fault { result.fault ≡ None }
    {
        OpenLine {
            bytes: List::new(alloc),
            at: 0,
            fault: None,
        }
    }

    /// A copy, which equals the line.
    pub(crate) fn copy(&self, alloc: Global) -> Result<OpenLine, Memory>
        ensures { IfOk result (λ line. line ≡ self.now) }
    {
        let mut bytes = List::new(alloc);
        bytes.extend_from_slice(self.bytes.as_slice())?;
        Ok(OpenLine {
            bytes,
            at: self.at,
            fault: self.fault,
        })
    }

    /// The first line that the stream can't have. No memory.
    pub(crate) fn fault(&self) -> Option<LineFault>
        ensures { result ≡ self.now.fault }
    {
        self.fault
    }

    /// Takes the bytes of a piece, and puts the events of the lines that they end last.
    pub(crate) fn take_all(
        &mut self,
        alloc: Global,
        piece: &[u8],
        ready: &mut VecDeque<Event>,
    ) -> Result<(), Memory>
        ensures stands { OnOk result (StepsBy self.old ready.old.items piece.now
            self.new ready.new.items) }
        ensures kept { Begins ready.old.items ready.new.items }
    {
        for byte in piece {
            self.take_byte(alloc, *byte, ready)?;
        }
        Ok(())
    }

    /// Takes a byte; behind a bad line it tells nothing.
    fn take_byte(
        &mut self,
        alloc: Global,
        byte: u8,
        ready: &mut VecDeque<Event>,
    ) -> Result<(), Memory>
        ensures stands { OnOk result (StepsBy self.old ready.old.items (byte ∷ [])
            self.new ready.new.items) }
        ensures kept { Begins ready.old.items ready.new.items }
    {
        if self.fault.is_some() {
            return Ok(());
        }
        if byte == b'\n' {
            return self.end(alloc, ready);
        }
        self.lengthen(byte)
    }

    /// Takes a byte that ends no line.
    fn lengthen(&mut self, byte: u8) -> Result<(), Memory>
        ensures { OnOk result (self.new ≡ longer self.old byte) }
    {
        self.bytes.push(byte)?;
        if self.bytes.len() > MOST_EVENT_BYTES {
            self.fault = Some(LineFault::TooLong { at: self.at });
        }
        Ok(())
    }

    /// Takes the end of the line, and puts its event last.
    fn end(&mut self, alloc: Global, ready: &mut VecDeque<Event>) -> Result<(), Memory>
        ensures ends { OnOk result (EndsBy self.old ready.old.items self.new ready.new.items) }
        ensures kept { Begins ready.old.items ready.new.items }
    {
        match line_of(alloc, self.bytes.as_slice())? {
            Line::Blank => {}
            Line::Told(event) => ready.push_back(event)?,
            Line::Bad => {
                self.fault = Some(LineFault::BadEvent { at: self.at });
                return Ok(());
            }
        }
        let length = self.bytes.len() as u64;
        self.at = self.at.saturating_add(length).saturating_add(1);
        self.bytes = List::new(alloc);
        Ok(())
    }
}
