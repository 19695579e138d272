use crate::files::reads;
use crate::hands::{clock, hand, plug};
use crate::lines::{say, say_if_any, write};
use crate::load_files::load_files;
use crate::sinks::writes;
use crate::whole_call::call;
use crate::whole_calls::calls;
use case_files::{Answers, Fields};

const CALL: [&str; 9] = [
    "directory",
    "files",
    "failing_reads",
    "environment",
    "out_sink",
    "err_sink",
    "engine",
    "served",
    "no_hand_left",
];

const LOAD_FILES: [&str; 6] = [
    "directory",
    "files",
    "failing_reads",
    "environment",
    "env_files",
    "project_directory",
];

const READS: [&str; 2] = ["files", "failing_reads"];

const SINK: [&str; 3] = ["room", "failing_writes", "pieces"];

const HAND: [&str; 2] = ["engine", "pause"];

const PLUG: [&str; 1] = ["engine"];

/// The inputs of a call beside its main one, or None where the call isn't one of this crate. No memory.
pub fn inputs_of(call: &str) -> Option<&'static [&'static str]> {
    match call {
        "call" => Some(&CALL),
        "load_files" => Some(&LOAD_FILES),
        "reads" => Some(&READS),
        "write" | "writes" | "say" | "say_if_any" => Some(&SINK),
        "hand" => Some(&HAND),
        "plug" => Some(&PLUG),
        "calls" | "clock" => Some(&[]),
        _ => None,
    }
}

/// Makes the call of a case. It is no case where `inputs_of` doesn't know the call, and where an input isn't of its form.
pub fn answer(name: &str, fields: &Fields, answers: &mut Answers) {
    match name {
        "call" => call(fields, answers),
        "calls" => calls(fields, answers),
        "load_files" => load_files(fields, answers),
        "reads" => reads(fields, answers),
        "write" => write(fields, answers),
        "writes" => writes(fields, answers),
        "say" => say(fields, answers),
        "say_if_any" => say_if_any(fields, answers),
        "hand" => hand(fields, answers),
        "clock" => clock(fields, answers),
        "plug" => plug(fields, answers),
        _ => answers.reading.no_call(name),
    }
}
