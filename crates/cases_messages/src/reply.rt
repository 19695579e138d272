use crate::ids::{id_of, say_id};
use crate::names::{code_of, health_of, health_word, state_of, state_word};
use crate::request::{say_of, say_of_id};
use case_files::{Line, Reading};
use engine_types::{Health, Listed, NetRow, Reply, Report};
use std::alloc::Global;
use tree_base::{List, Text};

/// The reply of a line: `state STATE [CODE] [HEALTH]`, `bytes [NUMBER]..`, `made ID`, `done`, `already`, `image ID`,
/// `pulled`, `pull failed MESSAGE`, `refused STATUS MESSAGE`; and `containers`, `networks` and `volumes` of nothing.
pub fn read_reply(reading: &mut Reading, line: &str) -> Reply {
    let (verb, rest) = line.split_once(' ').unwrap_or((line, ""));
    match verb {
        "state" => Reply::State(read_report(reading, rest)),
        "bytes" => Reply::Bytes(read_bytes(reading, rest)),
        "made" => Reply::Made(id_of(reading, rest)),
        "done" => Reply::Done,
        "already" => Reply::Already,
        "image" => Reply::ImageId(id_of(reading, rest)),
        "pulled" => Reply::Pulled,
        "pull" => Reply::PullFailed(reading.text(rest.strip_prefix("failed ").unwrap_or(rest))),
        "refused" => refused(reading, rest),
        _ => listing(reading, verb),
    }
}

/// The bytes that a line's numbers are.
pub fn read_bytes(reading: &mut Reading, line: &str) -> List<u8> {
    let mut bytes = List::new(reading.alloc);
    for word in line.split_whitespace() {
        let byte = byte_of(reading, word);
        reading.push(&mut bytes, byte);
    }
    bytes
}

fn byte_of(reading: &mut Reading, word: &str) -> u8 {
    match u8::try_from(reading.number(word)) {
        Ok(byte) => byte,
        Err(_) => {
            reading.refuse_word("a byte", word);
            0
        }
    }
}

fn listing(reading: &mut Reading, verb: &str) -> Reply {
    match verb {
        "containers" => Reply::Containers(List::new(reading.alloc)),
        "networks" => Reply::Networks(List::new(reading.alloc)),
        "volumes" => Reply::Volumes(List::new(reading.alloc)),
        _ => {
            reading.refuse_word("a reply", verb);
            Reply::Done
        }
    }
}

fn refused(reading: &mut Reading, line: &str) -> Reply {
    let (status, message) = line.split_once(' ').unwrap_or((line, ""));
    Reply::Refused {
        status: reading.status(status),
        message: reading.text(message),
    }
}

/// A report of words: the state, then the exit code and the health, where they are told.
pub fn read_report(reading: &mut Reading, line: &str) -> Report {
    let mut words = line.split_whitespace();
    let mut report = Report {
        state: state_of(reading, words.next().unwrap_or("")),
        exit_code: 0,
        health: Health::Absent,
    };
    for word in words {
        if is_code(word) {
            report.exit_code = code_of(reading, word);
        } else {
            report.health = health_of(reading, word);
        }
    }
    report
}

/// Whether a word is an exit code: it begins with a digit or a minus.
fn is_code(word: &str) -> bool {
    match word.as_bytes() {
        [first, ..] => first.is_ascii_digit() || *first == b'-',
        [] => false,
    }
}

/// The line of a reply: listings with their rows, behind commas.
pub fn reply_line(alloc: Global, reply: &Reply) -> Line {
    let mut line = Line::new(alloc);
    say_reply(&mut line, reply);
    line
}

/// The same on a line.
pub(crate) fn say_reply(line: &mut Line, reply: &Reply) {
    match reply {
        Reply::Containers(rows) => say_containers(line, rows.as_slice()),
        Reply::State(report) => say_state(line, report),
        Reply::Bytes(bytes) => say_bytes(line, bytes.as_slice()),
        Reply::Made(id) => say_of_id(line, "made", id),
        Reply::Done => line.word("done"),
        Reply::Already => line.word("already"),
        Reply::Networks(rows) => say_networks(line, rows.as_slice()),
        Reply::Volumes(names) => say_volumes(line, names.as_slice()),
        Reply::ImageId(id) => say_of_id(line, "image", id),
        Reply::Pulled => line.word("pulled"),
        Reply::PullFailed(message) => say_of(line, "pull failed", message),
        Reply::Refused { status, message } => say_refused(line, *status, message),
    }
}

fn say_bytes(line: &mut Line, bytes: &[u8]) {
    line.word("bytes");
    for byte in bytes {
        line.number(u64::from(*byte));
    }
}

fn say_refused(line: &mut Line, status: u16, message: &Text) {
    line.word("refused");
    line.number(u64::from(status));
    line.word(message.as_str());
}

fn say_state(line: &mut Line, report: &Report) {
    line.word("state");
    say_report(line, report);
}

/// Says a report: the state, the exit code where it isn't 0, and the health where there is one.
pub fn say_report(line: &mut Line, report: &Report) {
    line.word(state_word(report.state));
    if report.exit_code != 0 {
        line.code(report.exit_code);
    }
    if report.health != Health::Absent {
        line.word(health_word(report.health));
    }
}

/// The mark before a row of a listing: nothing before the first one.
fn mark_of(at: usize) -> &'static str {
    if at == 0 { "" } else { "," }
}

fn say_containers(line: &mut Line, rows: &[Listed]) {
    line.word("containers");
    for (at, row) in rows.iter().enumerate() {
        line.put(mark_of(at));
        say_listed(line, row);
    }
}

/// Says a container of a listing: its id, name and state, and its networks' names behind `on`.
fn say_listed(line: &mut Line, row: &Listed) {
    say_id(line, row.id.as_str());
    line.word(row.name.as_str());
    line.word(state_word(row.state));
    if !row.networks.is_empty() {
        line.word("on");
    }
    line.words(row.networks.as_slice());
}

fn say_networks(line: &mut Line, rows: &[NetRow]) {
    line.word("networks");
    for (at, row) in rows.iter().enumerate() {
        line.put(mark_of(at));
        say_id(line, row.id.as_str());
        line.word(row.name.as_str());
    }
}

fn say_volumes(line: &mut Line, names: &[Text]) {
    line.word("volumes");
    line.words(names);
}
