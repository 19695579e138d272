ghost use Rattle.std.specs.Prelude.{◌≤◌};
ghost use Rattle.request_reading.specs.Hearing.{AnswersTo, Hears};

use crate::heads::{copied, read_head};
use crate::received::{Received, RequestEnd};
use crate::stock::Stock;
use outside_api::Pipe;
use std::alloc::Global;

/// Reads one request from a connection, of which nothing was read: its head, and its body where it is posted.
///
/// `Wire(Ended)` where the connection ended inside the request, `Wire(TooLarge)` where the head has more than 65,536 bytes or
/// 100 header lines, or the body more than 16,777,216 bytes, `Wire(Malformed)` where the head isn't one of the grammar, or what is
/// posted doesn't say its length in one Content-Length of digits alone, and `Wire(Fault)` where the connection failed.
pub fn read_request<P: Pipe>(alloc: Global, pipe: &mut P) -> Result<Received, RequestEnd>
    ensures counted { P.faults pipe.old ≤ P.faults pipe.new }
    ensures answers { Hears (P.talk pipe.old) (P.talk pipe.new)
        (AnswersTo (P.faults pipe.old) (P.faults pipe.new) result) }
{
    let mut stock = Stock::new(alloc);
    let head = read_head(alloc, pipe, &mut stock)?;
    let end = head.length + head.size as usize;
    stock.fill_to(pipe, end)?;
    let bytes = stock.bytes.as_slice().split_at(end).0;
    let body = copied(alloc, bytes.split_at(head.length).1)?;
    Ok(Received {
        method: head.method,
        target: head.target,
        body,
    })
}
