ghost use Rattle.std.specs.Prelude.{◌≤◌};
ghost use Rattle.response_rules.specs.Lines.{chunk_line_part, trailer_part};
ghost use Rattle.http_response.specs.ChunksRead.{ReadsEndBy, ReadsSizeBy, ReadsTrailerBy};
ghost use Rattle.http_response.specs.Hearing.{Hears};
ghost use Rattle.http_response.specs.Stocks.{FindsEndBy};

use crate::response::ResponseEnd;
use crate::stock::Stock;
use engine_types::WireEnd;
use http_heads::{ChunkLineSearch, LineSearch, SearchAnswer};
use httparse::spans::{EMPTY_HEADER_SPAN, parse_headers};
use httparse::{Status, parse_chunk_size};
use outside_api::Pipe;
use std::alloc::Global;
use tree_base::limits::{MOST_HEAD_BYTES, MOST_HEADER_LINES};

/// The line of a chunk that was read: how many bytes the chunk has, and how many the line.
#[derive(Clone, Copy)]
pub(crate) struct LineRead {
    pub(crate) size: u64,
    pub(crate) length: u64,
}

/// Reads the line of the next chunk (RFC 9112, section 7.1).
pub(crate) fn read_size<P: Pipe>(
    alloc: Global,
    pipe: &mut P,
    stock: &mut Stock,
) -> Result<LineRead, ResponseEnd>
    ensures counted { P.faults pipe.old ≤ P.faults pipe.new }
    ensures reads { Hears (P.talk pipe.old) (P.talk pipe.new)
        (ReadsSizeBy stock.old stock.new (P.faults pipe.old) (P.faults pipe.new) result) }
{
    let end = line_end(alloc, pipe, stock)?;
    let at = stock.place();
    match parse_chunk_size(stock.left().split_at(end).0) {
        Ok(Status::Complete((length, size))) => {
            stock.use_up(length);
            Ok(LineRead {
                size,
                length: length as u64,
            })
        }
        Ok(Status::Partial) => Err(ResponseEnd::Wire(WireEnd::Malformed { at })),
        Err(_) => Err(ResponseEnd::Wire(WireEnd::Malformed { at })),
    }
}

/// Reads up to the first line feed, and how many bytes the line has with it.
fn line_end<P: Pipe>(alloc: Global, pipe: &mut P, stock: &mut Stock) -> Result<usize, ResponseEnd>
    ensures counted { P.faults pipe.old ≤ P.faults pipe.new }
    ensures finds { Hears (P.talk pipe.old) (P.talk pipe.new)
        (FindsEndBy chunk_line_part stock.old stock.new
        (P.faults pipe.old) (P.faults pipe.new) result) }
{
    let mut search = ChunkLineSearch::new();
    'reading: loop {
        match search.part(stock.left()) {
            SearchAnswer::Ends(end) => return Ok(end),
            SearchAnswer::Passed => return Err(ResponseEnd::Wire(WireEnd::TooLarge)),
            SearchAnswer::Unfinished => stock.read_on(alloc, pipe)?,
        }
    }
}

/// Reads the CRLF behind the bytes of a chunk, whose line begins at a place.
pub(crate) fn read_chunk_end<P: Pipe>(
    alloc: Global,
    pipe: &mut P,
    stock: &mut Stock,
    at: u64,
) -> Result<(), ResponseEnd>
    ensures counted { P.faults pipe.old ≤ P.faults pipe.new }
    ensures reads { Hears (P.talk pipe.old) (P.talk pipe.new)
        (ReadsEndBy at stock.old stock.new (P.faults pipe.old) (P.faults pipe.new) result) }
{
    'reading: while stock.left().len() < 2 {
        stock.read_on(alloc, pipe)?;
    }
    if stock.left().split_at(2).0 != b"\r\n".as_slice() {
        return Err(ResponseEnd::Wire(WireEnd::Malformed { at }));
    }
    stock.use_up(2);
    Ok(())
}

/// Reads the lines behind the last chunk, which are header lines of so many bytes at most, and drops them (RFC 9112, section
/// 7.1.2).
pub(crate) fn read_trailer<P: Pipe>(
    alloc: Global,
    pipe: &mut P,
    stock: &mut Stock,
    room: u64,
) -> Result<(), ResponseEnd>
    ensures counted { P.faults pipe.old ≤ P.faults pipe.new }
    ensures reads { Hears (P.talk pipe.old) (P.talk pipe.new)
        (ReadsTrailerBy room stock.old stock.new (P.faults pipe.old) (P.faults pipe.new) result) }
{
    let end = trailer_end(alloc, pipe, stock)?;
    if end as u64 > room {
        return Err(ResponseEnd::Wire(WireEnd::TooLarge));
    }
    let at = stock.place();
    let mut headers = [EMPTY_HEADER_SPAN; MOST_HEADER_LINES];
    match parse_headers(stock.left().split_at(end).0, &mut headers) {
        Ok(Status::Complete((length, _))) => {
            stock.use_up(length);
            Ok(())
        }
        Ok(Status::Partial) => Err(ResponseEnd::Wire(WireEnd::Malformed { at })),
        Err(_) => Err(ResponseEnd::Wire(WireEnd::Malformed { at })),
    }
}

/// Reads up to the empty line behind the last chunk, and how many bytes there are with it.
fn trailer_end<P: Pipe>(
    alloc: Global,
    pipe: &mut P,
    stock: &mut Stock,
) -> Result<usize, ResponseEnd>
    ensures counted { P.faults pipe.old ≤ P.faults pipe.new }
    ensures finds { Hears (P.talk pipe.old) (P.talk pipe.new)
        (FindsEndBy trailer_part stock.old stock.new (P.faults pipe.old) (P.faults pipe.new) result) }
{
    let mut search = LineSearch::of_trailer();
    'reading: loop {
        match search.part(stock.left(), MOST_HEAD_BYTES, MOST_HEADER_LINES) {
            SearchAnswer::Ends(end) => return Ok(end),
            SearchAnswer::Passed => return Err(ResponseEnd::Wire(WireEnd::TooLarge)),
            SearchAnswer::Unfinished => stock.read_on(alloc, pipe)?,
        }
    }
}
