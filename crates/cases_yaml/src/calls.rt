use crate::refusals::{law, refusal};
use crate::rows::{blanks_of, key_end, row_with_place, white_character};
use crate::scalars::{block_text, plain_text, quoted_at_place, quoted_text};
use crate::texts::{cut_length, grouped_lines, lines_of_file, yaml};
use case_files::{Answers, Fields};

/// The inputs of a call beside its main one; None where the call isn't one of the YAML reader. No memory.
pub fn inputs_of(call: &str) -> Option<&'static [&'static str]> {
    match call {
        "yaml"
        | "quoted"
        | "key_end"
        | "blanks"
        | "white_character"
        | "grouped"
        | "cut"
        | "yaml_law" => Some(&[]),
        "quoted_at" => Some(&["at", "file", "number"]),
        "plain" => Some(&["context"]),
        "block" => Some(&["header", "first", "parent"]),
        "lines" => Some(&["file"]),
        "row" => Some(&["file", "index", "at"]),
        "yaml_refusal" => Some(&["file", "line", "column"]),
        _ => None,
    }
}

/// Makes the call of a case. It is no case where an input is missing or isn't of its form, and where the call isn't one
/// of the YAML reader.
pub fn answer(call: &str, fields: &Fields, answers: &mut Answers) {
    match call {
        "yaml" => yaml(fields, answers),
        "quoted" => quoted_text(fields, answers),
        "quoted_at" => quoted_at_place(fields, answers),
        "plain" => plain_text(fields, answers),
        "key_end" => key_end(fields, answers),
        "block" => block_text(fields, answers),
        "lines" => lines_of_file(fields, answers),
        "blanks" => blanks_of(fields, answers),
        "white_character" => white_character(fields, answers),
        "row" => row_with_place(fields, answers),
        "yaml_refusal" => refusal(fields, answers),
        "yaml_law" => law(fields, answers),
        "grouped" => grouped_lines(fields, answers),
        "cut" => cut_length(fields, answers),
        _ => answers.reading.no_call(call),
    }
}
