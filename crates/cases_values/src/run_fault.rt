use crate::entry::late_why;
use case_files::{Fields, Reading};
use cases_messages::{cause_of, condition_of, kind_of, read_outcome, read_report, read_request};
use engine_types::{Request, RunFault, SeenFault};

/// The fault of a run, by its first key: `request` with an `outcome`; `condition` with a `slot` and a `report`; `late`;
/// `stopped: true`; `memory: true`; or `seen`, the fault of an observation in words: `request failed` with a
/// `request`, a `status` and a `message`, `pull failed` with an `image` and a `message`, `lost` with a `request` and a
/// `cause`, `not sent` with a `request`, `network twice` with `name`, `first` and `second`, `foreign network` with
/// `name` and `id`, `external missing` with `kind` and `name`, `needs build` with `service`, `too many actions` with
/// `count`, `memory`. None where the fields have no such key.
pub fn run_fault_of(reading: &mut Reading, fields: &Fields) -> Option<RunFault> {
    if fields.has("seen") {
        Some(RunFault::Seen(seen_fault(reading, fields)))
    } else if fields.has("condition") {
        Some(condition_fault(reading, fields))
    } else if fields.has("outcome") {
        Some(request_fault(reading, fields))
    } else if fields.has("late") {
        let why = reading.text_at(fields, "late");
        Some(RunFault::Late(late_why(reading, why.as_str())))
    } else {
        plain_fault(reading, fields)
    }
}

fn plain_fault(reading: &mut Reading, fields: &Fields) -> Option<RunFault> {
    if reading.flag(fields, "stopped") {
        Some(RunFault::Stopped)
    } else if reading.flag(fields, "memory") {
        Some(RunFault::Memory)
    } else {
        None
    }
}

fn request_fault(reading: &mut Reading, fields: &Fields) -> RunFault {
    let words = reading.text_at(fields, "outcome");
    RunFault::Request {
        request: request_at(reading, fields),
        outcome: read_outcome(reading, words.as_str()),
    }
}

fn condition_fault(reading: &mut Reading, fields: &Fields) -> RunFault {
    let condition = reading.text_at(fields, "condition");
    let words = reading.text_at(fields, "report");
    RunFault::Condition {
        slot: reading.text_at(fields, "slot"),
        condition: condition_of(reading, condition.as_str()),
        report: read_report(reading, words.as_str()),
    }
}

fn seen_fault(reading: &mut Reading, fields: &Fields) -> SeenFault {
    let words = reading.text_at(fields, "seen");
    match words.as_str() {
        "request failed" => request_failed(reading, fields),
        "pull failed" => SeenFault::PullFailed {
            image: reading.text_at(fields, "image"),
            message: reading.text_at(fields, "message"),
        },
        "lost" => lost(reading, fields),
        "not sent" => not_sent(reading, fields),
        "too many actions" => SeenFault::TooManyActions {
            count: reading.number_or(fields, "count", 0),
        },
        "memory" => SeenFault::Memory,
        words => declared_fault(reading, fields, words),
    }
}

fn request_failed(reading: &mut Reading, fields: &Fields) -> SeenFault {
    SeenFault::RequestFailed {
        request: request_at(reading, fields),
        status: status_at(reading, fields),
        message: reading.text_at(fields, "message"),
    }
}

/// The request under the key `request`.
fn request_at(reading: &mut Reading, fields: &Fields) -> Request {
    let words = reading.text_at(fields, "request");
    read_request(reading, words.as_str())
}

fn status_at(reading: &mut Reading, fields: &Fields) -> u16 {
    let word = reading.text_at(fields, "status");
    reading.status(word.as_str())
}

fn lost(reading: &mut Reading, fields: &Fields) -> SeenFault {
    let request = request_at(reading, fields);
    let cause = reading.text_at(fields, "cause");
    SeenFault::Lost {
        request,
        cause: cause_of(reading, cause.as_str()),
    }
}

fn not_sent(reading: &mut Reading, fields: &Fields) -> SeenFault {
    SeenFault::NotSent {
        request: request_at(reading, fields),
    }
}

/// A fault of what was declared beside what was seen.
fn declared_fault(reading: &mut Reading, fields: &Fields, words: &str) -> SeenFault {
    match words {
        "network twice" => SeenFault::NetworkTwice {
            name: reading.text_at(fields, "name"),
            first: reading.text_at(fields, "first"),
            second: reading.text_at(fields, "second"),
        },
        "foreign network" => SeenFault::ForeignNetwork {
            name: reading.text_at(fields, "name"),
            id: reading.text_at(fields, "id"),
        },
        "external missing" => external_missing(reading, fields),
        "needs build" => SeenFault::NeedsBuild {
            service: reading.text_at(fields, "service"),
        },
        _ => {
            reading.refuse_word("a fault of an observation", words);
            SeenFault::Memory
        }
    }
}

fn external_missing(reading: &mut Reading, fields: &Fields) -> SeenFault {
    let kind = reading.text_at(fields, "kind");
    SeenFault::ExternalMissing {
        kind: kind_of(reading, kind.as_str()),
        name: reading.text_at(fields, "name"),
    }
}
