use case_files::{Answers, Fields, Reading};
use cases_messages::{outcome_line, read_outcome, read_request, request_line};
use cases_values::pairs_at;
use engine_types::{Outcome, Request, label};
use run_model::Verdict;
use std::alloc::Global;
use tree_base::{Memory, Text, TryCopy};

/// The inputs of a call on single values.
pub(crate) fn inputs_of(call: &str) -> Option<&'static [&'static str]> {
    match call {
        "label" => Some(&["pairs"]),
        "copy_request" => Some(&[]),
        "copy_outcome" => Some(&[]),
        "verdict" => Some(&["other"]),
        _ => None,
    }
}

/// Makes a call on single values.
pub(crate) fn answer(call: &str, fields: &Fields, answers: &mut Answers) {
    match call {
        "label" => label_value(fields, answers),
        "copy_request" => copy_request(fields, answers),
        "copy_outcome" => copy_outcome(fields, answers),
        "verdict" => verdict(fields, answers),
        _ => answers.reading.no_call(call),
    }
}

/// The `value` of a label, null where the pairs have none.
fn label_value(fields: &Fields, answers: &mut Answers) {
    let pairs = pairs_at(&mut answers.reading, fields, "pairs");
    let name = answers.reading.text_at(fields, "label");
    match label(&pairs, name.as_str()) {
        Some(value) => answers.put_text("value", value.as_str()),
        None => answers.put_null("value"),
    }
}

/// The copy of a request: its line, and whether the request has that line too, `same`.
fn copy_request(fields: &Fields, answers: &mut Answers) {
    let line = answers.reading.text_at(fields, "copy_request");
    let request = read_request(&mut answers.reading, line.as_str());
    let copied = copied_request(answers.reading.alloc, &request);
    let line = request_line(answers.reading.alloc, &request).end();
    drop(request);
    put_copied(copied, line, answers);
}

fn copied_request(alloc: Global, request: &Request) -> Result<Text, Memory> {
    let copy = request.copy(alloc)?;
    let line = request_line(alloc, &copy);
    drop(copy);
    line.end()
}

/// The copy of what came of a request: its line, and whether what it copies has that line too, `same`.
fn copy_outcome(fields: &Fields, answers: &mut Answers) {
    let line = answers.reading.text_at(fields, "copy_outcome");
    let outcome = read_outcome(&mut answers.reading, line.as_str());
    let copied = copied_outcome(answers.reading.alloc, &outcome);
    let line = outcome_line(answers.reading.alloc, &outcome).end();
    drop(outcome);
    put_copied(copied, line, answers);
}

fn copied_outcome(alloc: Global, outcome: &Outcome) -> Result<Text, Memory> {
    let copy = outcome.copy(alloc)?;
    let line = outcome_line(alloc, &copy);
    drop(copy);
    line.end()
}

/// Puts the line of a copy, and whether what it copies has that line too.
fn put_copied(copied: Result<Text, Memory>, line: Result<Text, Memory>, answers: &mut Answers) {
    let empty = Text::new(answers.reading.alloc);
    let copied = answers.reading.given(copied, empty);
    let empty = Text::new(answers.reading.alloc);
    let line = answers.reading.given(line, empty);
    answers.put_text("copied", copied.as_str());
    answers.put_flag("same", line == copied);
}

/// Whether two verdicts are the `same`.
fn verdict(fields: &Fields, answers: &mut Answers) {
    let verdict = verdict_at(&mut answers.reading, fields, "verdict");
    let other = verdict_at(&mut answers.reading, fields, "other");
    answers.put_flag("same", verdict == other);
}

fn verdict_at(reading: &mut Reading, fields: &Fields, key: &str) -> Verdict {
    let word = reading.text_at(fields, key);
    match word.as_str() {
        "met" => Verdict::Met,
        "failed" => Verdict::Failed,
        "not yet" => Verdict::NotYet,
        _ => {
            reading.wants(key, "met, failed or not yet");
            Verdict::Met
        }
    }
}
