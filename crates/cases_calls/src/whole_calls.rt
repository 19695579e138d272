use crate::kinds::inputs_of;
use crate::whole_call::call_on;
use case_files::{Answers, Case, CaseFault, Fields, Line, Lines, Reading};
use memory_engine::MemoryEngine;
use std::alloc::Global;
use tree_base::{List, Text, Tree};

/// What calls that were made one after another left: the Engine, where there is one; the exit statuses; and how
/// their answers differ from those that are wanted.
#[derive(Drop)]
struct Left {
    engines: List<MemoryEngine>,
    statuses: Lines,
    differences: Line,
}

/// Makes whole calls one after another on the same Engine. Each item of `calls` is itself a case of `call`, with its
/// inputs and the answers that are wanted; `statuses` has the exit statuses. The case is refused with the differences
/// where an answer of an item is another one than wanted.
pub fn calls(fields: &Fields, answers: &mut Answers) {
    let alloc = answers.reading.alloc;
    let mut left = Left {
        engines: List::new(alloc),
        statuses: Lines::new(alloc),
        differences: Line::new(alloc),
    };
    call_each(&mut answers.reading, fields, &mut left);
    put_left(left, answers);
}

fn put_left(left: Left, answers: &mut Answers) {
    let Left {
        engines,
        statuses,
        differences,
    } = left;
    drop(engines);
    let differences = answers.reading.said(differences);
    if !differences.is_empty() {
        answers.refuse(differences.as_str());
    }
    answers.put_lines("statuses", statuses);
}

fn call_each(reading: &mut Reading, fields: &Fields, left: &mut Left) {
    for item in reading.items(fields, "calls") {
        if let Err(fault) = call_one(reading.alloc, item, left) {
            reading.note(fault);
        }
    }
}

fn call_one(alloc: Global, item: &Tree, left: &mut Left) -> Result<(), CaseFault> {
    let case = Case::of_tree(alloc, item)?;
    let name = case.call()?;
    if name.as_str() != "call" {
        return Err(CaseFault::no_case(alloc, "each of `calls` wants to be `call`"));
    }
    let inputs = inputs_of("call").unwrap_or(&[]);
    case.has_wanted(name, inputs)?;
    make_call(alloc, &case, name, inputs, left)
}

fn make_call(
    alloc: Global,
    case: &Case,
    name: &Text,
    inputs: &[&str],
    left: &mut Left,
) -> Result<(), CaseFault> {
    let mut answers = Answers::new(alloc);
    call_on(case.fields(), &mut left.engines, &mut answers);
    case.say_differences(&mut left.differences, name, inputs, &answers);
    if let Some(Tree::Scalar(status)) = answers.find("status") {
        left.statuses.push_text(status.copy(alloc));
    }
    let sound = answers.reading.sound();
    drop(answers);
    sound
}
