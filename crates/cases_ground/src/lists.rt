use crate::case_step::CaseStep;
use crate::items::{Items, numbers_tree};
use case_files::{Answers, Fields, Reading};
use std::mem;
use tree_base::{List, item_at};

/// `list: NUMBERS` with `steps`: what the steps `gave`, and what the list `becomes`.
pub(crate) fn list(fields: &Fields, answers: &mut Answers) {
    let mut list = List::from_vec(answers.reading.numbers(fields, "list").into_vec());
    let mut gave = Items::new(answers.reading.alloc);
    take_steps(&mut answers.reading, fields, &mut list, &mut gave);
    answers.put_made("gave", gave.whole());
    let items = list.into_vec();
    let becomes = numbers_tree(answers.reading.alloc, items.as_slice());
    answers.put_made("becomes", becomes);
}

fn take_steps(reading: &mut Reading, fields: &Fields, list: &mut List<u64>, gave: &mut Items) {
    for tree in reading.items(fields, "steps") {
        take_step(reading, &CaseStep::of_tree(tree), list, gave);
    }
}

fn take_step(reading: &mut Reading, step: &CaseStep, list: &mut List<u64>, gave: &mut Items) {
    match step.name() {
        "reserve" => {
            let reserved = list.reserve(step.count(reading));
            reading.done(reserved);
        }
        "push" => {
            let number = step.number(reading);
            reading.push(list, number);
        }
        "extend" => {
            let extended = list.extend_from_slice(step.numbers(reading).as_slice());
            reading.done(extended);
        }
        "pop" => gave.number_or_null(list.pop()),
        "remove" => remove(reading, step, list, gave),
        "replace" => replace(reading, step, list, gave),
        "get_mut" => write_over(reading, step, list, gave),
        _ => ask(reading, step, list, gave),
    }
}

fn remove(reading: &mut Reading, step: &CaseStep, list: &mut List<u64>, gave: &mut Items) {
    let at = step.count(reading);
    if at < list.len() {
        gave.number(list.remove(at));
    } else {
        step.no_place(reading);
    }
}

fn replace(reading: &mut Reading, step: &CaseStep, list: &mut List<u64>, gave: &mut Items) {
    let at = step.number_at(reading, 0) as usize;
    let number = step.number_at(reading, 1);
    if at < list.len() {
        gave.number(list.replace(at, number));
    } else {
        step.no_place(reading);
    }
}

/// Writes over the item at a place, and gives what stood there.
fn write_over(reading: &mut Reading, step: &CaseStep, list: &mut List<u64>, gave: &mut Items) {
    let at = step.number_at(reading, 0) as usize;
    let number = step.number_at(reading, 1);
    gave.number_or_null(written_over(list, at, number));
}

fn written_over(list: &mut List<u64>, at: usize, number: u64) -> Option<u64> {
    let item = list.get_mut(at)?;
    Some(mem::replace(item, number))
}

fn ask(reading: &mut Reading, step: &CaseStep, list: &List<u64>, gave: &mut Items) {
    match step.name() {
        "is_empty" => gave.flag(list.is_empty()),
        "length" => gave.number(list.len() as u64),
        "get" => gave.number_or_null(list.get(step.count(reading)).copied()),
        "item_at" => gave.number_or_null(item_at(list.as_slice(), step.count(reading)).copied()),
        _ => step.unknown(reading),
    }
}
