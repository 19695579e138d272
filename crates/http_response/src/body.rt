ghost use Rattle.std.specs.Prelude.{◌≡◌, ◌<◌, ◌≤◌, ◌^◌, Bool, List, ℕ};
ghost use Rattle.http_response.specs.Bodies.{ContinuesWithin, IsBegun, IsOpen, IsOpenWithin, OpensWithin, ReadsRestBy, opening};
ghost use Rattle.http_response.specs.Hearing.{Hears};
ghost use Rattle.http_response.specs.Reading.{Reads};
ghost use Rattle.http_response.specs.declared.body.Rest.{Rest};

use crate::chunks::{read_chunk_end, read_size, read_trailer};
use crate::heads::{Head, read_head};
use crate::response::{Response, ResponseEnd};
use crate::stock::Stock;
use engine_types::WireEnd;
use http_fields::Framing;
use outside_api::Pipe;
use std::alloc::Global;
use tree_base::List;
use tree_base::limits::{MOST_BODY_BYTES, MOST_FRAMING_BYTES};

/// What is still to come of a body.
#[derive(Clone, Copy)]
enum Rest {
    Nothing,
    /// So many bytes.
    Sized(u64),
    /// All up to the connection's end, of which so many bytes may come.
    ToEnd(u64),
    /// Chunks, of which so many bytes may come, and so many of their framing.
    Chunks {
        room: u64,
        lines: u64,
    },
    /// So many bytes of a chunk whose line begins at a place, the CRLF behind it, and then chunks, of which so many bytes
    /// may come, and so many of their framing.
    Chunk {
        left: u64,
        at: u64,
        more: u64,
        lines: u64,
    },
}

/// A response whose head is read, and whose body is read in pieces.
#[derive(Drop)]
pub struct OpenBody {
    status: u16,
    stock: Stock,
    rest: Rest,
}

/// Reads the head of a response whose body has so many bytes at most as the limit says. A head of a status 1xx is skipped.
///
/// A refusal says in which way the bytes that were read are no response: `Wire(TooLarge)` also where the head says a length
/// past the limit.
pub fn open_response<P: Pipe>(
    alloc: Global,
    pipe: &mut P,
    limit: u64,
) -> Result<OpenBody, ResponseEnd>
    requires { limit < 2 ^ 62 }
    ensures counted { P.faults pipe.old ≤ P.faults pipe.new }
    ensures opens { OpensWithin limit (P.talk pipe.old) (P.talk pipe.new) (P.faults pipe.old)
        (P.faults pipe.new) result }
{
    let mut stock = Stock::new(alloc);
    let head = read_head(alloc, pipe, &mut stock, limit)?;
    Ok(OpenBody {
        status: head.status,
        stock,
        rest: rest_of(head, limit),
    })
}

/// What is to come of a body of at most so many bytes behind a head.
fn rest_of(head: Head, limit: u64) -> Rest
    ensures { result ≡ opening limit head.status head.framing }
{
    if head.status == 204 || head.status == 304 {
        return Rest::Nothing;
    }
    match head.framing {
        Framing::Sized(length) => Rest::Sized(length),
        Framing::ToEnd => Rest::ToEnd(limit),
        Framing::Chunked => Rest::Chunks {
            room: limit,
            lines: MOST_FRAMING_BYTES,
        },
    }
}

impl OpenBody {
    /// The response's status. No memory.
    pub fn status(&self) -> u16
        ensures { result ≡ self.now.status }
    {
        self.status
    }

    /// Puts the next bytes of the body last, at least one, and answers true; or false at the body's end, where what was put is
    /// the body of a whole response (RFC 9112, section 6.3). The pipe is the one that the response was opened on, and nothing else
    /// was read of it since.
    ///
    /// `Wire(Ended)` where the connection ended before the body, `Wire(TooLarge)` where a body of more bytes than the limit
    /// that it was opened with, more than 16,777,216 of its framing in chunks, a chunk line of more than 65,536 or more than 100
    /// lines behind the last chunk come, `Wire(Malformed)` where chunks aren't of the grammar, with the byte at which they
    /// aren't, and `Wire(Fault)` where the connection failed. After a refusal nothing is put. The status stays.
    pub fn more<P: Pipe>(
        &mut self,
        alloc: Global,
        pipe: &mut P,
        to: &mut List<u8>,
    ) -> Result<bool, ResponseEnd>
        ensures counted { P.faults pipe.old ≤ P.faults pipe.new }
        ensures status { self.new.status ≡ self.old.status }
        ensures continues { (limit : ℕ) (read : List ℕ) (ended : Bool) (given : List ℕ)
            → IsOpenWithin limit self.old read ended given
            → ContinuesWithin limit self.new read ended given to.old to.new (P.talk pipe.old)
            (P.talk pipe.new) (P.faults pipe.old) (P.faults pipe.new) result }
    {
        match self.rest {
            Rest::Nothing => Ok(false),
            Rest::Sized(left) => self.more_sized(alloc, pipe, to, left),
            Rest::ToEnd(room) => self.more_to_end(alloc, pipe, to, room),
            Rest::Chunks { room, lines } => self.next_chunk(alloc, pipe, to, room, lines),
            Rest::Chunk {
                left,
                at,
                more,
                lines,
            } => self.more_of_chunk(alloc, pipe, to, left, at, more, lines),
        }
    }

    fn more_sized<P: Pipe>(
        &mut self,
        alloc: Global,
        pipe: &mut P,
        to: &mut List<u8>,
        left: u64,
    ) -> Result<bool, ResponseEnd>
        ensures counted { P.faults pipe.old ≤ P.faults pipe.new }
        ensures status { self.new.status ≡ self.old.status }
        ensures continues { (limit : ℕ) (read : List ℕ) (ended : Bool) (given : List ℕ)
            → IsOpenWithin limit (record self.old { rest = Rest.Sized left }) read ended given
            → ContinuesWithin limit self.new read ended given to.old to.new (P.talk pipe.old)
            (P.talk pipe.new) (P.faults pipe.old) (P.faults pipe.new) result }
    {
        if left == 0 {
            return Ok(false);
        }
        let count = self.stock.ready(alloc, pipe)?.min(left);
        if count == 0 {
            return Err(ResponseEnd::Wire(WireEnd::Ended)); // fewer came than the head says
        }
        self.stock.give(to, count as usize)?;
        self.rest = Rest::Sized(left - count);
        Ok(true)
    }

    fn more_to_end<P: Pipe>(
        &mut self,
        alloc: Global,
        pipe: &mut P,
        to: &mut List<u8>,
        room: u64,
    ) -> Result<bool, ResponseEnd>
        ensures counted { P.faults pipe.old ≤ P.faults pipe.new }
        ensures status { self.new.status ≡ self.old.status }
        ensures continues { (limit : ℕ) (read : List ℕ) (ended : Bool) (given : List ℕ)
            → IsOpenWithin limit (record self.old { rest = Rest.ToEnd room }) read ended given
            → ContinuesWithin limit self.new read ended given to.old to.new (P.talk pipe.old)
            (P.talk pipe.new) (P.faults pipe.old) (P.faults pipe.new) result }
    {
        let count = self.stock.ready(alloc, pipe)?;
        if count > room {
            return Err(ResponseEnd::Wire(WireEnd::TooLarge));
        }
        if count == 0 {
            return Ok(false);
        }
        self.stock.give(to, count as usize)?;
        self.rest = Rest::ToEnd(room - count);
        Ok(true)
    }

    fn next_chunk<P: Pipe>(
        &mut self,
        alloc: Global,
        pipe: &mut P,
        to: &mut List<u8>,
        room: u64,
        lines: u64,
    ) -> Result<bool, ResponseEnd>
        ensures counted { P.faults pipe.old ≤ P.faults pipe.new }
        ensures status { self.new.status ≡ self.old.status }
        ensures continues { (limit : ℕ) (read : List ℕ) (ended : Bool) (given : List ℕ)
            → IsOpenWithin limit (record self.old { rest = Rest.Chunks room lines }) read ended given
            → ContinuesWithin limit self.new read ended given to.old to.new (P.talk pipe.old)
            (P.talk pipe.new) (P.faults pipe.old) (P.faults pipe.new) result }
    {
        let at = self.stock.place();
        let line = read_size(alloc, pipe, &mut self.stock)?;
        let framing = line.length.saturating_add(2); // with the line end behind
        if framing > lines {
            return Err(ResponseEnd::Wire(WireEnd::TooLarge));
        }
        let size = line.size;
        if size > room {
            return Err(ResponseEnd::Wire(WireEnd::TooLarge));
        }
        if size == 0 {
            read_trailer(alloc, pipe, &mut self.stock, lines - line.length)?;
            self.rest = Rest::Nothing;
            return Ok(false);
        }
        self.bytes_of_chunk(alloc, pipe, to, size, at, room - size, lines - framing)
    }

    fn more_of_chunk<P: Pipe>(
        &mut self,
        alloc: Global,
        pipe: &mut P,
        to: &mut List<u8>,
        left: u64,
        at: u64,
        more: u64,
        lines: u64,
    ) -> Result<bool, ResponseEnd>
        ensures counted { P.faults pipe.old ≤ P.faults pipe.new }
        ensures status { self.new.status ≡ self.old.status }
        ensures continues { (limit : ℕ) (read : List ℕ) (ended : Bool) (given : List ℕ)
            → IsOpenWithin limit (record self.old { rest = Rest.Chunk left at more lines }) read ended given
            → ContinuesWithin limit self.new read ended given to.old to.new (P.talk pipe.old)
            (P.talk pipe.new) (P.faults pipe.old) (P.faults pipe.new) result }
    {
        if left == 0 {
            read_chunk_end(alloc, pipe, &mut self.stock, at)?;
            return self.next_chunk(alloc, pipe, to, more, lines);
        }
        self.bytes_of_chunk(alloc, pipe, to, left, at, more, lines)
    }

    fn bytes_of_chunk<P: Pipe>(
        &mut self,
        alloc: Global,
        pipe: &mut P,
        to: &mut List<u8>,
        left: u64,
        at: u64,
        more: u64,
        lines: u64,
    ) -> Result<bool, ResponseEnd>
        requires some { 0 < left }
        ensures counted { P.faults pipe.old ≤ P.faults pipe.new }
        ensures status { self.new.status ≡ self.old.status }
        ensures continues { (limit : ℕ) (read : List ℕ) (ended : Bool) (given : List ℕ)
            → IsOpenWithin limit (record self.old { rest = Rest.Chunk left at more lines }) read ended given
            → ContinuesWithin limit self.new read ended given to.old to.new (P.talk pipe.old)
            (P.talk pipe.new) (P.faults pipe.old) (P.faults pipe.new) result }
    {
        let count = self.stock.ready(alloc, pipe)?.min(left);
        if count == 0 {
            return Err(ResponseEnd::Wire(WireEnd::Ended));
        }
        self.stock.give(to, count as usize)?;
        self.rest = Rest::Chunk {
            left: left - count,
            at,
            more,
            lines,
        };
        Ok(true)
    }
}

/// Reads a whole response: its head, behind those of a status 1xx, and its body (RFC 9112, sections 4 to 7). Bytes behind it
/// may have been read too, and are dropped.
///
/// A refusal says in which way the bytes that were read are no response: those of a head, or of a body as `OpenBody::more` has
/// them. A body has at most 16,777,216 bytes.
pub fn read_response<P: Pipe>(alloc: Global, pipe: &mut P) -> Result<Response, ResponseEnd>
    ensures counted { P.faults pipe.old ≤ P.faults pipe.new }
    ensures reads { Reads (P.talk pipe.old) (P.talk pipe.new) (P.faults pipe.old)
        (P.faults pipe.new) result }
{
    let mut open = open_response(alloc, pipe, MOST_BODY_BYTES)?;
    let mut body = List::new(alloc);
    read_rest(alloc, pipe, &mut open, &mut body)?;
    Ok(Response {
        status: open.status(),
        body,
    })
}

/// Puts the rest of a body last, behind what was given of it.
fn read_rest<P: Pipe>(
    alloc: Global,
    pipe: &mut P,
    response: &mut OpenBody,
    body: &mut List<u8>,
) -> Result<(), ResponseEnd>
    requires begun { IsBegun response.old body.old }
    ensures counted { P.faults pipe.old ≤ P.faults pipe.new }
    ensures reads { (read : List ℕ) (ended : Bool) → IsOpen response.old read ended body.old
        → Hears (P.talk pipe.old) (P.talk pipe.new)
        (ReadsRestBy read ended response.new body.new (P.faults pipe.old) (P.faults pipe.new) result) }
{
    'reading: while response.more(alloc, pipe, body)? {}
    Ok(())
}
