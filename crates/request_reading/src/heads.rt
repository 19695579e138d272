ghost use Rattle.std.specs.Prelude.{◌≡◌, ◌≤◌, ℕ, IfOk, List, [], codes, length, take, option_map, false};
ghost use Rattle.httparse.specs.Grammar.{RequestHead};
ghost use Rattle.httparse.specs.Spans.{IsWithin, span_bytes};
ghost use Rattle.response_rules.specs.Lines.{ends, head_part};
ghost use Rattle.http_fields.specs.Fields.{AreWithin, Cover, values_at};
ghost use Rattle.request_reading.specs.Hearing.{Hears};
ghost use Rattle.request_reading.specs.Requests.{length_by};
ghost use Rattle.request_reading.specs.Stocks.{FindsHeadBy, OpensBy, ParsedBy, SaysBy, capped};

use crate::fields::length_said;
use crate::received::RequestEnd;
use crate::stock::Stock;
use engine_types::WireEnd;
use http_heads::{LineSearch, SearchAnswer};
use httparse::Status;
use httparse::spans::{EMPTY_HEADER_SPAN, HeaderSpan, RequestSpans, parse_request};
use outside_api::Pipe;
use std::alloc::Global;
use tree_base::limits::{MOST_BODY_BYTES, MOST_HEAD_BYTES, MOST_HEADER_LINES};
use tree_base::{List, Memory};

/// What a head says.
#[derive(Drop)]
pub(crate) struct Head {
    pub(crate) method: List<u8>,
    pub(crate) target: List<u8>,
    /// How many bytes it has.
    pub(crate) length: usize,
    /// How many bytes the body has.
    pub(crate) size: u64,
}

/// Reads the head of the request, on a connection of which nothing was read.
pub(crate) fn read_head<P: Pipe>(
    alloc: Global,
    pipe: &mut P,
    stock: &mut Stock,
) -> Result<Head, RequestEnd>
    requires empty { stock.old.bytes ≡ [] }
    requires open { stock.old.ended ≡ false }
    ensures counted { P.faults pipe.old ≤ P.faults pipe.new }
    ensures opens { Hears (P.talk pipe.old) (P.talk pipe.new)
        (OpensBy stock.new (P.faults pipe.old) (P.faults pipe.new) result) }
{
    let end = head_end(pipe, stock)?;
    parsed(alloc, stock.bytes.as_slice().split_at(end).0)
}

/// Reads up to the empty line of the head, and how many bytes the head has.
fn head_end<P: Pipe>(pipe: &mut P, stock: &mut Stock) -> Result<usize, RequestEnd>
    ensures counted { P.faults pipe.old ≤ P.faults pipe.new }
    ensures finds { Hears (P.talk pipe.old) (P.talk pipe.new)
        (FindsHeadBy stock.old stock.new (P.faults pipe.old) (P.faults pipe.new) result) }
{
    let mut search = LineSearch::of_head();
    'reading: loop {
        match search.part(
            stock.bytes.as_slice(),
            MOST_HEAD_BYTES,
            MOST_HEADER_LINES + 1,
        ) {
            SearchAnswer::Ends(end) => return Ok(end),
            SearchAnswer::Passed => return Err(RequestEnd::Wire(WireEnd::TooLarge)),
            SearchAnswer::Unfinished => stock.read_on(pipe)?,
        }
    }
}

/// What a head says; these bytes are the head, up to its empty line.
fn parsed(alloc: Global, bytes: &[u8]) -> Result<Head, RequestEnd>
    ensures { (read : List ℕ) → head_part 0 read ≡ ends (length bytes.now)
        → bytes.now ≡ take (length bytes.now) read → ParsedBy read result }
{
    let mut headers = [EMPTY_HEADER_SPAN; MOST_HEADER_LINES];
    match parse_request(bytes, &mut headers) {
        Ok(Status::Complete(spans)) => {
            head_at(alloc, bytes, headers.split_at(spans.headers).0, spans)
        }
        Ok(Status::Partial) => Err(RequestEnd::Wire(WireEnd::Malformed { at: 0 })),
        Err(_) => Err(RequestEnd::Wire(WireEnd::Malformed { at: 0 })),
    }
}

/// What a head says whose parts stand at these places.
fn head_at(
    alloc: Global,
    bytes: &[u8],
    headers: &[HeaderSpan],
    spans: RequestSpans,
) -> Result<Head, RequestEnd>
    requires headers { AreWithin bytes.now headers.now }
    requires method { IsWithin (length bytes.now) spans.method }
    requires path { IsWithin (length bytes.now) spans.path }
    ensures { (head : RequestHead) → Cover bytes.now headers.now head.fields
        → span_bytes bytes.now spans.method ≡ head.method
        → span_bytes bytes.now spans.path ≡ head.target → SaysBy spans.len head result }
{
    let method = spans.method.of(bytes);
    let Some(size) = body_length(bytes, headers, method) else {
        return Err(RequestEnd::Wire(WireEnd::Malformed { at: 0 }));
    };
    if size > MOST_BODY_BYTES {
        return Err(RequestEnd::Wire(WireEnd::TooLarge));
    }
    let method = copied(alloc, method)?;
    let target = copied(alloc, spans.path.of(bytes))?;
    Ok(Head {
        method,
        target,
        length: spans.len,
        size,
    })
}

/// How long the body is that goes with a method: what is posted says its length (RFC 9110, section 8.6).
fn body_length(bytes: &[u8], headers: &[HeaderSpan], method: &[u8]) -> Option<u64>
    requires { AreWithin bytes.now headers.now }
    ensures { result ≡ option_map capped
        (length_by method.now (values_at bytes.now headers.now (codes "content-length"))) }
{
    if method == b"POST".as_slice() {
        length_said(bytes, headers)
    } else {
        Some(0)
    }
}

/// Bytes as a list.
pub(crate) fn copied(alloc: Global, bytes: &[u8]) -> Result<List<u8>, Memory>
    ensures { IfOk result (λ list. list ≡ bytes.now) }
{
    let mut list = List::new(alloc);
    list.extend_from_slice(bytes)?;
    Ok(list)
}
