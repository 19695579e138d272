ghost use Rattle.std.specs.Prelude.{◌≡◌, ℕ, ◌<◌, ◌≤◌, ◌^◌, List, drop, length, take, true};
ghost use Rattle.tree_base.specs.Limits.{most_head_bytes};
ghost use Rattle.response_rules.specs.Heads.{is_interim};
ghost use Rattle.response_rules.specs.Lines.{ends, head_part};
ghost use Rattle.http_response.specs.Found.{IsSkipping, NextHeadBy, ParsedBy, ReadHeadBy};
ghost use Rattle.http_response.specs.Hearing.{Hears};
ghost use Rattle.http_response.specs.Stocks.{FindsEndBy, left};

use crate::response::ResponseEnd;
use crate::stock::Stock;
use engine_types::WireEnd;
use http_fields::{Framing, framing_or_fault};
use http_heads::{LineSearch, SearchAnswer};
use httparse::Status;
use httparse::spans::{EMPTY_HEADER_SPAN, parse_response};
use outside_api::Pipe;
use std::alloc::Global;
use tree_base::limits::{MOST_HEAD_BYTES, MOST_HEADER_LINES};

/// What a head says.
#[derive(Clone, Copy)]
pub(crate) struct Head {
    pub(crate) status: u16,
    pub(crate) framing: Framing,
    /// How many bytes it has.
    length: usize,
}

/// Reads the head of the response, and skips those before it that another follows (RFC 9110, section 15.2). A body has so
/// many bytes at most as the limit says.
pub(crate) fn read_head<P: Pipe>(
    alloc: Global,
    pipe: &mut P,
    stock: &mut Stock,
    limit: u64,
) -> Result<Head, ResponseEnd>
    requires small { limit < 2 ^ 62 }
    ensures counted { P.faults pipe.old ≤ P.faults pipe.new }
    ensures reads { Hears (P.talk pipe.old) (P.talk pipe.new)
        (ReadHeadBy limit stock.old stock.new (P.faults pipe.old) (P.faults pipe.new) result) }
{
    let mut skipped = 0;
    'heads: loop {
        let head = next_head(alloc, pipe, stock, skipped, limit)?;
        skipped += head.length;
        if !is_interim(head.status) {
            stock.use_up(skipped);
            return Ok(head);
        }
    }
}

/// Reads one head, behind so many bytes of skipped heads.
fn next_head<P: Pipe>(
    alloc: Global,
    pipe: &mut P,
    stock: &mut Stock,
    skipped: usize,
    limit: u64,
) -> Result<Head, ResponseEnd>
    requires within { skipped ≤ length (left stock.old) }
    requires small { skipped ≤ most_head_bytes }
    requires small_limit { limit < 2 ^ 62 }
    ensures counted { P.faults pipe.old ≤ P.faults pipe.new }
    ensures reads { Hears (P.talk pipe.old) (P.talk pipe.new)
        (NextHeadBy limit stock.old stock.new skipped (P.faults pipe.old) (P.faults pipe.new) result) }
{
    let end = head_end(alloc, pipe, stock, skipped)?;
    let bytes = stock.left().split_at(skipped).1.split_at(end).0;
    match parsed(bytes, skipped as u64, limit) {
        Ok(head) => Ok(head),
        Err(cause) => Err(ResponseEnd::Wire(cause)),
    }
}

/// Reads up to the empty line of a head, and how many bytes the head has.
fn head_end<P: Pipe>(
    alloc: Global,
    pipe: &mut P,
    stock: &mut Stock,
    skipped: usize,
) -> Result<usize, ResponseEnd>
    requires within { skipped ≤ length (left stock.old) }
    requires small { skipped ≤ most_head_bytes }
    ensures counted { P.faults pipe.old ≤ P.faults pipe.new }
    ensures finds { Hears (P.talk pipe.old) (P.talk pipe.new)
        (FindsEndBy (λ bytes. head_part skipped (drop skipped bytes)) stock.old stock.new
        (P.faults pipe.old) (P.faults pipe.new) result) }
{
    let mut search = LineSearch::of_head();
    'reading: loop {
        let bytes = stock.left().split_at(skipped).1;
        match search.part(bytes, MOST_HEAD_BYTES - skipped, MOST_HEADER_LINES + 1) {
            SearchAnswer::Ends(end) => return Ok(end),
            SearchAnswer::Passed => return Err(ResponseEnd::Wire(WireEnd::TooLarge)),
            SearchAnswer::Unfinished => stock.read_on(alloc, pipe)?,
        }
    }
}

/// What a head says, which begins at a place; these bytes are the head, up to its empty line.
fn parsed(bytes: &[u8], at: u64, limit: u64) -> Result<Head, WireEnd>
    requires { limit < 2 ^ 62 }
    ensures { (tail : List ℕ) → head_part at tail ≡ ends (length bytes.now)
        → bytes.now ≡ take (length bytes.now) tail → ParsedBy limit tail at result }
{
    let mut headers = [EMPTY_HEADER_SPAN; MOST_HEADER_LINES];
    match parse_response(bytes, &mut headers) {
        Ok(Status::Complete(spans)) => {
            let framing = framing_or_fault(bytes, headers.split_at(spans.headers).0, at, limit)?;
            Ok(Head {
                status: spans.code,
                framing,
                length: spans.len,
            })
        }
        Ok(Status::Partial) => Err(WireEnd::Malformed { at }),
        Err(_) => Err(WireEnd::Malformed { at }),
    }
}

/// A status that another head follows (RFC 9110, section 15.2).
fn is_interim(status: u16) -> bool
    ensures { result ≡ is_interim status }
{
    100 <= status && status < 200
}
