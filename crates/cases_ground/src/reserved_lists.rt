use crate::case_step::CaseStep;
use crate::items::{Items, numbers_tree};
use case_files::{Answers, Fields, Reading};
use std::alloc::Global;
use std::mem;
use tree_base::ReservedList;

/// `reserved_list: NUMBERS` with `steps`: what the steps `gave`, and what the list `becomes`.
pub(crate) fn reserved_list(fields: &Fields, answers: &mut Answers) {
    let mut list = ReservedList::from_list(answers.reading.numbers(fields, "reserved_list"));
    let mut gave = Items::new(answers.reading.alloc);
    take_steps(&mut answers.reading, fields, &mut list, &mut gave);
    answers.put_made("gave", gave.whole());
    let becomes = numbers_tree(answers.reading.alloc, list.as_slice());
    answers.put_made("becomes", becomes);
}

fn take_steps(
    reading: &mut Reading,
    fields: &Fields,
    list: &mut ReservedList<u64>,
    gave: &mut Items,
) {
    for tree in reading.items(fields, "steps") {
        take_step(reading, &CaseStep::of_tree(tree), list, gave);
    }
}

fn take_step(
    reading: &mut Reading,
    step: &CaseStep,
    list: &mut ReservedList<u64>,
    gave: &mut Items,
) {
    match step.name() {
        "reserve" => {
            let reserved = list.reserve(step.count(reading));
            reading.done(reserved);
        }
        "push" => {
            let pushed = list.push(step.number(reading));
            reading.done(pushed);
        }
        "pop" => gave.number_or_null(list.pop()),
        "through_a_list" => through_a_list(reading.alloc, list),
        "is_empty" => gave.flag(list.is_empty()),
        "length" => gave.number(list.len() as u64),
        "get" => gave.number_or_null(list.get(step.count(reading)).copied()),
        _ => step.unknown(reading),
    }
}

/// Makes a list of it and takes that back.
fn through_a_list(alloc: Global, list: &mut ReservedList<u64>) {
    let items = mem::replace(list, ReservedList::new(alloc)).into_list();
    *list = ReservedList::from_list(items);
}
