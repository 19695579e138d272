use crate::case_step::CaseStep;
use crate::items::Items;
use case_files::{Answers, Fields, Reading};
use std::cmp::Ordering;
use tree_base::Text;

/// `text: TEXT` with `steps`: what the steps `gave`, and what it `becomes`.
pub(crate) fn text(fields: &Fields, answers: &mut Answers) {
    let mut text = answers.reading.text_at(fields, "text");
    let mut gave = Items::new(answers.reading.alloc);
    take_steps(&mut answers.reading, fields, &mut text, &mut gave);
    answers.put_made("gave", gave.whole());
    answers.put_said("becomes", Ok(Text::from_string(text.into_string())));
}

fn take_steps(reading: &mut Reading, fields: &Fields, text: &mut Text, gave: &mut Items) {
    for tree in reading.items(fields, "steps") {
        take_step(reading, &CaseStep::of_tree(tree), text, gave);
    }
}

fn take_step(reading: &mut Reading, step: &CaseStep, text: &mut Text, gave: &mut Items) {
    match step.name() {
        "push_str" => push_all(reading, step, text),
        "push" => push_first(reading, step, text),
        "is_empty" => gave.flag(text.is_empty()),
        "length" => gave.number(text.len() as u64),
        _ => step.unknown(reading),
    }
}

fn push_all(reading: &mut Reading, step: &CaseStep, text: &mut Text) {
    let pushed = text.push_str(step.text(reading).as_str());
    reading.done(pushed);
}

fn push_first(reading: &mut Reading, step: &CaseStep, text: &mut Text) {
    let from = step.text(reading);
    if let Some(c) = from.as_str().chars().next() {
        let pushed = text.push(c);
        reading.done(pushed);
    }
}

/// `printed_text: TEXT`: how it is printed for `display` and for `debug`.
pub(crate) fn printed_text(fields: &Fields, answers: &mut Answers) {
    let text = answers.reading.text_at(fields, "printed_text");
    answers.put_printed("display", format!(in answers.reading.alloc; "{text}"));
    answers.put_printed("debug", format!(in answers.reading.alloc; "{text:?}"));
}

/// `compare: TEXT` `with` another: their `order`, and that of the other and `itself`.
pub(crate) fn compare(fields: &Fields, answers: &mut Answers) {
    let text = answers.reading.text_at(fields, "compare");
    let other = answers.reading.text_at(fields, "with");
    answers.put_text("order", order_word(text.cmp(&other)));
    let copy = other.copy(answers.reading.alloc);
    if let Some(copy) = answers.reading.made(copy) {
        answers.put_text("itself", order_word(other.cmp(&copy)));
    }
}

fn order_word(order: Ordering) -> &'static str {
    match order {
        Ordering::Less => "Less",
        Ordering::Equal => "Equal",
        Ordering::Greater => "Greater",
    }
}
