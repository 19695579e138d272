ghost use Rattle.std.specs.Prelude.{◌≡◌, ◌≤◌, ◌<◌, ◌^◌, IfSome, length};
ghost use Rattle.engine_bodies.specs.Requests.{bytes_of};
ghost use Rattle.outside_api.specs.Pipes.{silence};
ghost use Rattle.http_hand.specs.Speaking.{AnswersOn, IsOutcomeOf, SpeaksBy, SpeaksOn, SpeaksOnce};

use engine_bodies::request_bytes;
use engine_json::{ReplyRefusal, reply_of};
use engine_types::{Outcome, Request, WireEnd};
use http_response::{Response, ResponseEnd, read_response};
use outside_api::{DialAnswer, Pipe, write_on};
use std::alloc::Global;
use wires::EvenWire;

/// Makes an exchange over a wire, and says whether it opened a connection.
pub(crate) fn speak<W: EvenWire>(alloc: Global, wire: &mut W, request: &Request) -> (Outcome, bool)
    requires few { W.dialled wire.old < 2 ^ 62 }
    requires closed { IfSome (W.past wire.old) (λ talks. length talks ≤ W.dialled wire.old) }
    ensures counted { W.faults wire.old ≤ W.faults wire.new }
    ensures speaks { SpeaksBy result.1 request.now (bytes_of request.now) result.0 (W.past wire.old)
        (W.past wire.new) (W.dialled wire.old) (W.dialled wire.new)
        (W.faults wire.old) (W.faults wire.new) }
    ensures clock { W.clock wire.new ≡ W.clock wire.old }
{
    let Ok(bytes) = request_bytes(alloc, request) else {
        return (Outcome::Memory, false);
    };
    match wire.dial(alloc) {
        DialAnswer::Dialled(pipe) => {
            let outcome = speak_once(alloc, wire, pipe, request, bytes.as_slice());
            (outcome, true)
        }
        DialAnswer::Failed => (Outcome::NotSent, false),
        DialAnswer::Memory => (Outcome::Memory, false),
    }
}

/// Makes an exchange on a connection that was just opened, and closes it.
fn speak_once<W: EvenWire>(
    alloc: Global,
    wire: &mut W,
    mut pipe: W::P,
    request: &Request,
    bytes: &[u8],
) -> Outcome
    requires closed { IfSome (W.past wire.old) (λ talks. length talks < W.dialled wire.old) }
    requires fresh { IfSome (W.P.talk pipe) (λ talk. talk ≡ silence) }
    requires sound { W.P.faults pipe ≡ 0 }
    ensures counted { W.faults wire.old ≤ W.faults wire.new }
    ensures speaks { SpeaksOnce request.now bytes.now result (W.past wire.old) (W.past wire.new)
        (W.faults wire.old) (W.faults wire.new) }
    ensures dialled { W.dialled wire.new ≡ W.dialled wire.old }
    ensures clock { W.clock wire.new ≡ W.clock wire.old }
{
    let outcome = speak_on(alloc, &mut pipe, request, bytes);
    wire.close(pipe);
    outcome
}

/// Makes an exchange on a connection: writes these bytes, and reads the response to them.
fn speak_on<P: Pipe>(alloc: Global, pipe: &mut P, request: &Request, bytes: &[u8]) -> Outcome
    ensures counted { P.faults pipe.old ≤ P.faults pipe.new }
    ensures speaks { SpeaksOn request.now bytes.now result (P.talk pipe.old) (P.talk pipe.new)
        (P.faults pipe.old) (P.faults pipe.new) }
{
    let written = write_on(pipe, bytes);
    if written == bytes.len() {
        answer_on(alloc, pipe, request)
    } else if written == 0 {
        Outcome::NotSent
    } else {
        Outcome::Lost(WireEnd::Fault)
    }
}

/// Reads the response, and what it is to the request.
fn answer_on<P: Pipe>(alloc: Global, pipe: &mut P, request: &Request) -> Outcome
    ensures counted { P.faults pipe.old ≤ P.faults pipe.new }
    ensures answers { AnswersOn request.now (P.talk pipe.old) (P.talk pipe.new) (P.faults pipe.old)
        (P.faults pipe.new) result }
{
    match read_response(alloc, pipe) {
        Ok(response) => outcome_of(alloc, request, &response),
        Err(ResponseEnd::Wire(cause)) => Outcome::Lost(cause),
        Err(ResponseEnd::Memory) => Outcome::Memory,
    }
}

/// What a response is to a request.
fn outcome_of(alloc: Global, request: &Request, response: &Response) -> Outcome
    ensures { IsOutcomeOf request.now response.now.status response.now.body result }
{
    match reply_of(alloc, request, response.status, response.body.as_slice()) {
        Ok(reply) => Outcome::Answered(reply),
        Err(ReplyRefusal::TooLarge) => Outcome::Lost(WireEnd::TooLarge),
        Err(ReplyRefusal::BadBody) => Outcome::Lost(WireEnd::BadBody),
        Err(ReplyRefusal::Memory) => Outcome::Memory,
    }
}
