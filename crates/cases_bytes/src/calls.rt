use crate::events::events;
use crate::goals::goal;
use crate::logs::{log_lines, log_part};
use crate::requests::{events_request, request};
use crate::responses::{opened, response};
use case_files::{Answers, Fields};

/// The inputs of a call beside its main one; None where the call isn't one of this crate. No memory.
pub fn inputs_of(call: &str) -> Option<&'static [&'static str]> {
    match call {
        "request" => Some(&["spec"]),
        "opened" => Some(&["limit", "pieces", "failing_reads"]),
        "response" => Some(&["to", "pieces", "failing_reads"]),
        "log_lines" | "log_part" => Some(&[]),
        "events" => Some(&["pieces", "bytewise"]),
        "events_request" => Some(&[]),
        "goal" => Some(&["reports"]),
        _ => None,
    }
}

/// Makes the call of a case. It is no case where an input isn't of its form, and where the call isn't one of this crate.
pub fn answer(call: &str, fields: &Fields, answers: &mut Answers) {
    match call {
        "request" => request(fields, answers),
        "opened" => opened(fields, answers),
        "response" => response(fields, answers),
        "log_lines" => log_lines(fields, answers),
        "log_part" => log_part(fields, answers),
        "events" => events(fields, answers),
        "events_request" => events_request(fields, answers),
        "goal" => goal(fields, answers),
        _ => answers.reading.no_call(call),
    }
}
