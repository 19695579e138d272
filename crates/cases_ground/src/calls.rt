use crate::{lists, maps, reserved_lists, texts, trees, values};
use case_files::{Answers, Fields};

/// The inputs of a call beside its main one; None where the call isn't one of this crate. No memory.
pub fn inputs_of(call: &str) -> Option<&'static [&'static str]> {
    match call {
        "text" | "list" | "reserved_list" | "map" => Some(&["steps"]),
        "printed_text" | "boxed" | "copy_variables" | "place" => Some(&[]),
        "compare" => Some(&["with"]),
        "tree" => Some(&[
            "step",
            "path",
            "other",
            "most_nodes",
            "most_text",
            "most_levels",
        ]),
        "copy" => Some(&["as"]),
        _ => None,
    }
}

/// Makes the call of a case. It is no case where an input isn't of its form, and where the call isn't one of this crate.
pub fn answer(call: &str, fields: &Fields, answers: &mut Answers) {
    match call {
        "text" => texts::text(fields, answers),
        "printed_text" => texts::printed_text(fields, answers),
        "compare" => texts::compare(fields, answers),
        "list" => lists::list(fields, answers),
        "reserved_list" => reserved_lists::reserved_list(fields, answers),
        "map" => maps::map(fields, answers),
        "tree" => trees::tree(fields, answers),
        "boxed" => values::value_in_box(fields, answers),
        "copy" => values::copy(fields, answers),
        "copy_variables" => values::copy_variables(fields, answers),
        "place" => values::place(fields, answers),
        _ => answers.reading.no_call(call),
    }
}
