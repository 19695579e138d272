use crate::case_step::CaseStep;
use crate::entries::{under_keys, variables_tree};
use crate::items::{Items, numbers_tree, texts_tree};
use case_files::{Answers, Fields, Reading};
use std::alloc::Global;
use std::mem;
use tree_base::{Env, Memory, Text, Tree, TryCopy};

/// `map: VARIABLES` with `steps`: what the steps `gave`, and what the map `becomes`.
pub(crate) fn map(fields: &Fields, answers: &mut Answers) {
    let mut map = answers.reading.variables(fields, "map");
    let mut gave = Items::new(answers.reading.alloc);
    take_steps(&mut answers.reading, fields, &mut map, &mut gave);
    answers.put_made("gave", gave.whole());
    let becomes = variables_tree(answers.reading.alloc, &map);
    answers.put_made("becomes", becomes);
}

fn take_steps(reading: &mut Reading, fields: &Fields, map: &mut Env, gave: &mut Items) {
    for tree in reading.items(fields, "steps") {
        take_step(reading, &CaseStep::of_tree(tree), map, gave);
    }
}

fn take_step(reading: &mut Reading, step: &CaseStep, map: &mut Env, gave: &mut Items) {
    match step.name() {
        "copy" => put_copy(reading, map),
        "put" => put(reading, step, map, gave),
        "remove" => remove(reading, step, map, gave),
        "get_mut" => write_over(reading, step, map, gave),
        "into_parts" => give_parts(reading.alloc, map, gave),
        "with_values" => give_with_values(reading, step, map, gave),
        _ => ask(reading, step, map, gave),
    }
}

/// Puts a copy in place of the map.
fn put_copy(reading: &mut Reading, map: &mut Env) {
    let copy = map.copy(reading.alloc);
    if let Some(copy) = reading.made(copy) {
        drop(mem::replace(map, copy));
    }
}

fn put(reading: &mut Reading, step: &CaseStep, map: &mut Env, gave: &mut Items) {
    let key = step.text_at(reading, 0);
    let value = step.text_at(reading, 1);
    match map.put(key, value) {
        Ok(old) => gave.text_or_null(old.as_ref()),
        Err(Memory) => reading.memory(),
    }
}

fn remove(reading: &mut Reading, step: &CaseStep, map: &mut Env, gave: &mut Items) {
    let removed = map.remove(&step.text(reading));
    gave.text_or_null(removed.as_ref());
}

/// Writes over the value under a key, and gives what stood there.
fn write_over(reading: &mut Reading, step: &CaseStep, map: &mut Env, gave: &mut Items) {
    let key = step.text_at(reading, 0);
    let value = step.text_at(reading, 1);
    let old = written_over(map, &key, value);
    gave.text_or_null(old.as_ref());
}

fn written_over(map: &mut Env, key: &Text, value: Text) -> Option<Text> {
    match map.get_mut(key) {
        Some(place) => Some(mem::replace(place, value)),
        None => None,
    }
}

/// Takes the map apart, which leaves it empty, and gives its keys and its values.
fn give_parts(alloc: Global, map: &mut Env, gave: &mut Items) {
    let (keys, values) = mem::replace(map, Env::new(alloc)).into_parts();
    gave.tree(both_tree(alloc, keys.as_slice(), values.as_slice()));
}

fn both_tree(alloc: Global, keys: &[Text], values: &[Text]) -> Result<Tree, Memory> {
    let mut both = Items::new(alloc);
    both.tree(texts_tree(alloc, keys));
    both.tree(texts_tree(alloc, values));
    both.whole()
}

fn ask(reading: &mut Reading, step: &CaseStep, map: &Env, gave: &mut Items) {
    match step.name() {
        "pair" => give_pair(reading.alloc, map.pair(step.count(reading)), gave),
        "get" => gave.text_or_null(map.get(&step.text(reading))),
        "find" => gave.text_or_null(map.find(step.text(reading).as_str())),
        "value" => gave.text_or_null(map.value(&step.text(reading))),
        "is_empty" => gave.flag(map.is_empty()),
        "length" => gave.number(map.len() as u64),
        _ => step.unknown(reading),
    }
}

fn give_pair(alloc: Global, pair: Option<(&Text, &Text)>, gave: &mut Items) {
    match pair {
        Some((key, value)) => gave.tree(pair_tree(alloc, key, value)),
        None => gave.null(),
    }
}

fn pair_tree(alloc: Global, key: &Text, value: &Text) -> Result<Tree, Memory> {
    let mut items = Items::new(alloc);
    items.text(key.as_str());
    items.text(value.as_str());
    items.whole()
}

/// Gives the numbers that stand under the same keys, and how many keys there are.
fn give_with_values(reading: &mut Reading, step: &CaseStep, map: &Env, gave: &mut Items) {
    let numbers = step.numbers(reading);
    let counts = under_keys(reading, map, numbers);
    gave.tree(numbers_tree(reading.alloc, counts.values()));
    gave.number(counts.keys().len() as u64);
}
