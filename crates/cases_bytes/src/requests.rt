use crate::asked::request_at;
use case_files::{Answers, Fields};
use engine_bodies::{body_of, request_bytes};
use engine_types::Request;
use http_request::events_bytes;
use std::alloc::Global;
use std::str;
use tree_base::{List, Memory, Text};

/// What is sent for a request: its `bytes`, which are a text; its request `line`; and its `body`, null where it has none.
pub(crate) fn request(fields: &Fields, answers: &mut Answers) {
    let request = request_at(&mut answers.reading, fields, "request");
    let alloc = answers.reading.alloc;
    put_bytes(alloc, &request, answers);
    put_body(alloc, &request, answers);
    drop(request);
}

/// What is sent for the events of a project's containers: its `bytes`, and its request `line`.
pub(crate) fn events_request(fields: &Fields, answers: &mut Answers) {
    let alloc = answers.reading.alloc;
    let project = answers.reading.text_at(fields, "events_request");
    match events_bytes(alloc, &project) {
        Ok(bytes) => put_sent(&bytes, answers),
        Err(Memory) => answers.reading.memory(),
    }
}

fn put_bytes(alloc: Global, request: &Request, answers: &mut Answers) {
    match request_bytes(alloc, request) {
        Ok(bytes) => put_sent(&bytes, answers),
        Err(Memory) => answers.reading.memory(),
    }
}

fn put_sent(bytes: &List<u8>, answers: &mut Answers) {
    answers.put_bytes("bytes", bytes.as_slice());
    let text = str::from_utf8(bytes.as_slice()).unwrap_or("");
    let (line, _) = text.split_once("\r\n").unwrap_or((text, ""));
    answers.put_text("line", line);
}

fn put_body(alloc: Global, request: &Request, answers: &mut Answers) {
    match body_of(alloc, request) {
        Ok(Some(body)) => put_text(&body, answers),
        Ok(None) => answers.put_null("body"),
        Err(Memory) => answers.reading.memory(),
    }
}

fn put_text(body: &Text, answers: &mut Answers) {
    answers.put_text("body", body.as_str());
}
