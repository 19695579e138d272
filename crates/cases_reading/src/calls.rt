use crate::{
    active, dependents, env_files, forms, laws, merging, mounts, pages, ports, variables, words,
};
use case_files::{Answers, Fields};

/// The inputs of a call beside its main one; None where the call isn't one of the reading side. No memory.
pub fn inputs_of(call: &str) -> Option<&'static [&'static str]> {
    match call {
        "substitute" | "substitute_tree" => Some(&["variables"]),
        "env_file" => Some(&["outer"]),
        "command_line" | "question" | "made_project" | "page" | "page_scalar" => Some(&[]),
        "usage" => Some(&["pieces", "beginning"]),
        "duration" | "size" | "decimal" | "key_value" | "shell_words" | "port" | "mount" => {
            Some(&[])
        }
        "merge" | "long_forms" => Some(&[]),
        "overlay" => Some(&["base"]),
        "out_of_memory" | "law" => Some(&[]),
        "active" => Some(&["profiles", "variables"]),
        "dependents" => Some(&["project"]),
        _ => cases_ground::inputs_of(call),
    }
}

/// Makes the call of a case. It is no case where an input isn't of its form, and where the call isn't one of the reading
/// side.
pub fn answer(call: &str, fields: &Fields, answers: &mut Answers) {
    match call {
        "substitute" => variables::substitute(fields, answers),
        "substitute_tree" => variables::substitute_tree(fields, answers),
        "env_file" => env_files::env_file(fields, answers),
        "command_line" => words::command_line(fields, answers),
        "question" => words::question(fields, answers),
        "usage" => words::usage(fields, answers),
        "made_project" => words::made_project(fields, answers),
        "page" => pages::page(fields, answers),
        "page_scalar" => pages::page_scalar(fields, answers),
        "active" => active::active(fields, answers),
        "dependents" => dependents::needing(fields, answers),
        "law" => laws::law(fields, answers),
        _ => answer_of_form(call, fields, answers),
    }
}

/// The calls of short forms, and those of the ground.
fn answer_of_form(call: &str, fields: &Fields, answers: &mut Answers) {
    match call {
        "duration" => forms::duration(fields, answers),
        "size" => forms::size(fields, answers),
        "decimal" => forms::decimal(fields, answers),
        "key_value" => forms::key_value(fields, answers),
        "shell_words" => forms::shell_words(fields, answers),
        "port" => ports::port(fields, answers),
        "mount" => mounts::mount(fields, answers),
        "merge" => merging::merge(fields, answers),
        "long_forms" => merging::in_long_forms(fields, answers),
        "overlay" => merging::laid(fields, answers),
        "out_of_memory" => forms::out_of_memory(fields, answers),
        _ => cases_ground::answer(call, fields, answers),
    }
}
