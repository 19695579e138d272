ghost use Rattle.std.specs.Prelude.{◌≤◌};
ghost use Rattle.wait_run.specs.Streams.{OpensStreamBy, SendsBy};

use crate::refusal::WaitRefusal;
use engine_types::{StreamFault, WireEnd};
use http_request::events_bytes;
use http_response::{OpenBody, ResponseEnd, open_response};
use outside_api::{Pipe, write_on};
use std::alloc::Global;
use tree_base::Text;
use tree_base::limits::MOST_STREAM_BYTES;

/// Writes the request for a project's events.
pub(crate) fn send<P: Pipe>(
    alloc: Global,
    project: &Text,
    stream: &mut P,
) -> Result<(), WaitRefusal>
    ensures counted { P.faults stream.old ≤ P.faults stream.new }
    ensures sends { SendsBy project.now (P.talk stream.old) (P.talk stream.new)
        (P.faults stream.old) (P.faults stream.new) result }
{
    let bytes = events_bytes(alloc, project)?;
    let whole = bytes.len();
    let written = write_on(stream, bytes.as_slice());
    if written < whole {
        Err(WaitRefusal::Stream(StreamFault::Wire(WireEnd::Fault)))
    } else {
        Ok(())
    }
}

/// Reads the head of the stream, whose status is 200.
pub(crate) fn open<P: Pipe>(alloc: Global, stream: &mut P) -> Result<OpenBody, WaitRefusal>
    ensures counted { P.faults stream.old ≤ P.faults stream.new }
    ensures opens { OpensStreamBy (P.talk stream.old) (P.talk stream.new)
        (P.faults stream.old) (P.faults stream.new) result }
{
    match open_response(alloc, stream, MOST_STREAM_BYTES) {
        Ok(body) => {
            let status = body.status();
            if status == 200 {
                Ok(body)
            } else {
                Err(WaitRefusal::Stream(StreamFault::Refused(status)))
            }
        }
        Err(ResponseEnd::Wire(cause)) => Err(WaitRefusal::Stream(StreamFault::Wire(cause))),
        Err(ResponseEnd::Memory) => Err(WaitRefusal::Memory),
    }
}
