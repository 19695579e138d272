use crate::declaring::declares;
use case_files::{Answers, Fields};

const DECLARES: [&str; 5] = [
    "words",
    "files",
    "failing_reads",
    "environment",
    "directory",
];

/// The inputs of a call beside its main one; None where the call isn't one of this crate. No memory.
pub fn inputs_of(call: &str) -> Option<&'static [&'static str]> {
    match call {
        "declares" => Some(&DECLARES),
        _ => None,
    }
}

/// Whether a field of a case is an answer that is wanted of a call that declares. No memory.
pub(crate) fn is_wanted(key: &str) -> bool {
    for input in &DECLARES {
        if *input == key {
            return false;
        }
    }
    key != "case" && key != "declares"
}

/// Makes the call of a case. It is no case where an input isn't of its form, and where the call isn't one of this crate.
pub fn answer(call: &str, fields: &Fields, answers: &mut Answers) {
    match call {
        "declares" => declares(fields, answers),
        _ => answers.reading.no_call(call),
    }
}
