use crate::{ending, exactness, labelled, planning, refused, running, serving, values};
use case_files::{Answers, Fields};

/// The inputs of a call beside its main one, or None where the call isn't one of this crate.
pub fn inputs_of(call: &str) -> Option<&'static [&'static str]> {
    match call {
        "serve" => Some(&["engine"]),
        "plan" => Some(&["declared", "seen", "orphans", "volumes"]),
        "ending" => Some(&["declared", "seen", "plan", "wait"]),
        "run" => Some(&[
            "declared",
            "engine",
            "orphans",
            "volumes",
            "wait",
            "wait_seconds",
            "stop_seconds",
        ]),
        "exact" => Some(&["engine"]),
        "membership" => Some(&["project", "image", "container"]),
        "refusal" => Some(&[]),
        _ => values::inputs_of(call),
    }
}

/// Makes the call of a case.
pub fn answer(call: &str, fields: &Fields, answers: &mut Answers) {
    match call {
        "serve" => serving::serve(fields, answers),
        "plan" => planning::plan(fields, answers),
        "ending" => ending::ending(fields, answers),
        "run" => running::run(fields, answers),
        "exact" => exactness::exact(fields, answers),
        "membership" => labelled::membership(fields, answers),
        "refusal" => refused::refusal(fields, answers),
        _ => values::answer(call, fields, answers),
    }
}
