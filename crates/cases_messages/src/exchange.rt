use crate::reply::{read_reply, say_reply};
use crate::request::say_request;
use case_files::{Line, Lines, Reading};
use engine_types::{Exchange, Outcome, WireEnd};
use std::alloc::Global;

/// What came of a request, of a line: a reply, `lost CAUSE` (`lost Malformed PLACE`), `not sent`, `memory`.
pub fn read_outcome(reading: &mut Reading, line: &str) -> Outcome {
    if let Some(cause) = line.strip_prefix("lost ") {
        return Outcome::Lost(cause_of(reading, cause));
    }
    match line {
        "not sent" => Outcome::NotSent,
        "memory" => Outcome::Memory,
        _ => Outcome::Answered(read_reply(reading, line)),
    }
}

/// The cause of words.
pub fn cause_of(reading: &mut Reading, words: &str) -> WireEnd {
    if let Some(place) = words.strip_prefix("Malformed ") {
        return WireEnd::Malformed {
            at: reading.number(place),
        };
    }
    match words {
        "Fault" => WireEnd::Fault,
        "Ended" => WireEnd::Ended,
        "Encoded" => WireEnd::Encoded,
        "TooLarge" => WireEnd::TooLarge,
        "BadBody" => WireEnd::BadBody,
        _ => {
            reading.refuse_word("a cause", words);
            WireEnd::Fault
        }
    }
}

/// The line of what came of a request.
pub fn outcome_line(alloc: Global, outcome: &Outcome) -> Line {
    let mut line = Line::new(alloc);
    say_outcome(&mut line, outcome);
    line
}

/// The same on a line.
pub fn say_outcome(line: &mut Line, outcome: &Outcome) {
    match outcome {
        Outcome::Answered(reply) => say_reply(line, reply),
        Outcome::Lost(cause) => say_lost(line, *cause),
        Outcome::NotSent => line.word("not sent"),
        Outcome::Memory => line.word("memory"),
    }
}

fn say_lost(line: &mut Line, cause: WireEnd) {
    line.word("lost");
    line.word(cause_word(cause));
    if let WireEnd::Malformed { at } = cause {
        line.number(at);
    }
}

/// The word of a cause.
fn cause_word(cause: WireEnd) -> &'static str {
    match cause {
        WireEnd::Fault => "Fault",
        WireEnd::Ended => "Ended",
        WireEnd::Malformed { .. } => "Malformed",
        WireEnd::Encoded => "Encoded",
        WireEnd::TooLarge => "TooLarge",
        WireEnd::BadBody => "BadBody",
    }
}

/// The lines of exchanges, as of a hand's log, each as `REQUEST -> OUTCOME`.
pub fn exchange_lines(alloc: Global, exchanges: &[Exchange]) -> Lines {
    let mut lines = Lines::new(alloc);
    for exchange in exchanges {
        lines.push(exchange_line(alloc, exchange));
    }
    lines
}

fn exchange_line(alloc: Global, exchange: &Exchange) -> Line {
    let mut line = Line::new(alloc);
    say_request(&mut line, &exchange.request);
    line.word("->");
    say_outcome(&mut line, &exchange.outcome);
    line
}
