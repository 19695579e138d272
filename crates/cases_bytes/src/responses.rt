use crate::asked::request_at;
use crate::pipe::CasePipe;
use crate::told::row_lines;
use case_files::{Answers, Fields};
use cases_messages::outcome_line;
use engine_json::{ReplyRefusal, reply_of};
use engine_types::{Outcome, Request, WireEnd};
use http_response::{OpenBody, Response, ResponseEnd, open_response, read_response};
use tree_base::List;

/// Below this is the limit of a body that is read in pieces.
const END_OF_LIMITS: u64 = 4_611_686_018_427_387_904;

/// What the bytes of a connection answer to the request in words under `to`: the `reply`, as the line of what came of
/// it, and the `rows` of a listing; of a whole response also its `status`, and its `body` of so many bytes, its `length`;
/// and how often the connection was read, the `reads`.
pub(crate) fn response(fields: &Fields, answers: &mut Answers) {
    let request = request_at(&mut answers.reading, fields, "to");
    let mut pipe = CasePipe::of_case(&mut answers.reading, fields, "response");
    put_read(&request, &mut pipe, answers);
    answers.put_number("reads", pipe.reads());
    drop(request);
}

fn put_read(request: &Request, pipe: &mut CasePipe, answers: &mut Answers) {
    match read_response(answers.reading.alloc, pipe) {
        Ok(response) => put_response(request, &response, answers),
        Err(end) => put_end(end, answers),
    }
}

fn put_response(request: &Request, response: &Response, answers: &mut Answers) {
    answers.put_number("status", u64::from(response.status));
    answers.put_number("length", response.body.len() as u64);
    answers.put_bytes("body", response.body.as_slice());
    put_reply(request, response, answers);
}

/// Puts what a whole response gives.
fn put_reply(request: &Request, response: &Response, answers: &mut Answers) {
    let alloc = answers.reading.alloc;
    match reply_of(alloc, request, response.status, response.body.as_slice()) {
        Ok(reply) => put_outcome(&Outcome::Answered(reply), answers),
        Err(ReplyRefusal::TooLarge) => put_outcome(&Outcome::Lost(WireEnd::TooLarge), answers),
        Err(ReplyRefusal::BadBody) => put_outcome(&Outcome::Lost(WireEnd::BadBody), answers),
        Err(ReplyRefusal::Memory) => answers.reading.memory(),
    }
}

/// What the bytes of a connection give as a response whose body is read in pieces and has at most `limit` bytes: the
/// `status`, the `body` as far as it was given, and the `reply`: `whole`, or `lost` with the cause.
pub(crate) fn opened(fields: &Fields, answers: &mut Answers) {
    let limit = answers.reading.number_at(fields, "limit");
    let mut pipe = CasePipe::of_case(&mut answers.reading, fields, "opened");
    if limit >= END_OF_LIMITS {
        answers.reading.wants("limit", "a number below 2 ^ 62");
        return;
    }
    match open_response(answers.reading.alloc, &mut pipe, limit) {
        Ok(open) => put_open(open, &mut pipe, answers),
        Err(end) => put_end(end, answers),
    }
}

/// Reads the body, and puts it with the status that the response has then.
fn put_open(open: OpenBody, pipe: &mut CasePipe, answers: &mut Answers) {
    let mut open = open;
    let mut body = List::new(answers.reading.alloc);
    match read_pieces(&mut open, pipe, &mut body, answers) {
        Ok(()) => answers.put_text("reply", "whole"),
        Err(end) => put_end(end, answers),
    }
    answers.put_number("status", u64::from(open.status()));
    answers.put_bytes("body", body.as_slice());
}

/// Reads piece by piece; each has one of the connection's bytes at least.
fn read_pieces(
    open: &mut OpenBody,
    pipe: &mut CasePipe,
    body: &mut List<u8>,
    answers: &Answers,
) -> Result<(), ResponseEnd> {
    for _ in 0..=pipe.length() {
        if !open.more(answers.reading.alloc, pipe, body)? {
            return Ok(());
        }
    }
    Ok(())
}

fn put_end(end: ResponseEnd, answers: &mut Answers) {
    match end {
        ResponseEnd::Wire(cause) => put_outcome(&Outcome::Lost(cause), answers),
        ResponseEnd::Memory => answers.reading.memory(),
    }
}

fn put_outcome(outcome: &Outcome, answers: &mut Answers) {
    let alloc = answers.reading.alloc;
    answers.put_line("reply", outcome_line(alloc, outcome));
    if let Outcome::Answered(reply) = outcome {
        answers.put_lines("rows", row_lines(alloc, reply));
    }
}
