use crate::entries::Entries;
use case_files::{Answers, Fields, Reading};
use std::alloc::Global;
use std::fmt;
use tree_base::{Boxed, Env, List, Memory, Place, Tree, TryCopy, Var, copy_slice};

/// `boxed: NUMBER`: the `value` in the box, and what is `taken_out`.
pub(crate) fn value_in_box(fields: &Fields, answers: &mut Answers) {
    let number = answers.reading.number_at(fields, "boxed");
    let boxed = Boxed::new(answers.reading.alloc, number);
    if let Some(boxed) = answers.reading.made(boxed) {
        answers.put_number("value", *boxed.get());
        answers.put_number("taken_out", boxed.into_inner());
    }
}

/// `copy: VALUE` `as` a type: what is `copied`, of the value as an option.
pub(crate) fn copy(fields: &Fields, answers: &mut Answers) {
    let text = answers.reading.text_at(fields, "copy");
    let kind = answers.reading.text_at(fields, "as");
    put_copy_as(kind.as_str(), text.as_str(), answers);
}

fn put_copy_as(kind: &str, text: &str, answers: &mut Answers) {
    match kind {
        "u8" => put_copy(&text.parse::<u8>().ok(), answers),
        "u16" => put_copy(&text.parse::<u16>().ok(), answers),
        "u32" => put_copy(&text.parse::<u32>().ok(), answers),
        "u64" => put_copy(&text.parse::<u64>().ok(), answers),
        "i64" => put_copy(&text.parse::<i64>().ok(), answers),
        "bool" => put_copy(&text.parse::<bool>().ok(), answers),
        _ => answers.reading.refuse("there is no such type"),
    }
}

fn put_copy<T: TryCopy + Drop + fmt::Display>(value: &Option<T>, answers: &mut Answers) {
    match value.copy(answers.reading.alloc) {
        Ok(Some(copy)) => {
            answers.put_printed("copied", format!(in answers.reading.alloc; "{copy}"));
        }
        Ok(None) => answers.reading.refuse("the type has no such value"),
        Err(Memory) => answers.reading.memory(),
    }
}

/// `copy_variables: VARIABLES`: the records that are `copied`, and whether they are `equal` to their copies.
pub(crate) fn copy_variables(fields: &Fields, answers: &mut Answers) {
    let variables = answers.reading.variables(fields, "copy_variables");
    let records = records_of(&mut answers.reading, &variables);
    put_copies(records.as_slice(), answers);
}

fn put_copies(records: &[Var], answers: &mut Answers) {
    let copies = copy_slice(answers.reading.alloc, records);
    if let Some(copies) = answers.reading.made(copies) {
        answers.put_flag("equal", copies.as_slice() == records);
        let copied = records_tree(answers.reading.alloc, copies.as_slice());
        answers.put_made("copied", copied);
    }
}

fn records_of(reading: &mut Reading, variables: &Env) -> List<Var> {
    let mut records = List::new(reading.alloc);
    for (name, value) in variables.keys().iter().zip(variables.values()) {
        reading.push_pair(&mut records, name.as_str(), value.as_str());
    }
    records
}

fn records_tree(alloc: Global, records: &[Var]) -> Result<Tree, Memory> {
    let mut entries = Entries::new(alloc);
    for record in records {
        entries.text(record.name.as_str(), record.value.as_str());
    }
    entries.whole()
}

/// `place: {file: NUMBER, line: NUMBER, column: NUMBER}`: how it is printed for `debug`.
pub(crate) fn place(fields: &Fields, answers: &mut Answers) {
    if let Some(parts) = answers.reading.fields_at(fields, "place") {
        let place = Place {
            file: part_of(&mut answers.reading, &parts, "file"),
            line: part_of(&mut answers.reading, &parts, "line"),
            column: part_of(&mut answers.reading, &parts, "column"),
        };
        answers.put_printed("debug", format!(in answers.reading.alloc; "{place:?}"));
    }
}

fn part_of(reading: &mut Reading, parts: &Fields, key: &str) -> u32 {
    within_u32(reading.number_at(parts, key))
}

/// The number, or the greatest one of its type where it is greater. No memory.
pub(crate) fn within_u32(number: u64) -> u32 {
    u32::try_from(number).unwrap_or(u32::MAX)
}
