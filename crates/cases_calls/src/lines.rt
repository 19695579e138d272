use crate::piece_sink::PieceSink;
use crate::sinks::sink_of;
use case_files::{Answers, Fields};
use refusals::{Part, Refusal, Unbuilt};
use std::alloc::Global;
use tree_base::Tree;

/// Writes a text to a sink: `whole` says whether it was written whole, and `written` has what the sink took.
pub fn write(fields: &Fields, answers: &mut Answers) {
    let bytes = answers.reading.bytes_at(fields, "write");
    if let Some(mut sink) = sink_of(&mut answers.reading, fields) {
        let whole = outside_files::write_all(&mut sink, bytes.as_slice());
        answers.put_flag("whole", whole);
        answers.put_bytes("written", sink.written());
    }
}

/// Writes the line of a refusal: `refusal` has the one that was said, and `written` what the sink took.
pub fn say(fields: &Fields, answers: &mut Answers) {
    if let Some(mut sink) = sink_of(&mut answers.reading, fields) {
        say_to(fields, &mut sink, answers);
    }
}

fn say_to(fields: &Fields, sink: &mut PieceSink, answers: &mut Answers) {
    match refusal_in(fields.find("say")) {
        Some(refusal) => {
            let said = said(answers.reading.alloc, refusal, sink);
            put_said(Some(said), sink, answers);
        }
        None => answers.reading.wants("say", "a refusal"),
    }
}

/// Writes the line of a refusal, and names the one that was said.
fn said(alloc: Global, refusal: Refusal, sink: &mut PieceSink) -> &'static str {
    let said = refusals::say(alloc, refusal, sink);
    let name = name_of(&said);
    drop(said);
    name
}

/// Writes the line of a refusal, where there is one, with the answers of `say`.
pub fn say_if_any(fields: &Fields, answers: &mut Answers) {
    if let Some(mut sink) = sink_of(&mut answers.reading, fields) {
        let refusal = refusal_in(fields.find("say_if_any"));
        let said = said_if_any(answers.reading.alloc, refusal, &mut sink);
        put_said(said, &sink, answers);
    }
}

fn said_if_any(
    alloc: Global,
    refusal: Option<Refusal>,
    sink: &mut PieceSink,
) -> Option<&'static str> {
    let said = refusals::say_if_any(alloc, refusal, sink);
    let name = said.as_ref().map(name_of);
    drop(said);
    name
}

/// The refusal with a name; None where there is none of this name. No memory.
fn refusal_in(name: Option<&Tree>) -> Option<Refusal> {
    match name {
        Some(Tree::Scalar(name)) => refusal_named(name.as_str()),
        _ => None,
    }
}

fn refusal_named(name: &str) -> Option<Refusal> {
    match name {
        "words" => Some(Refusal::NotBuilt(Unbuilt::Words)),
        "stopped" => Some(Refusal::Stopped),
        "output" => Some(Refusal::Outside(Part::Out)),
        "plug" => Some(Refusal::Outside(Part::Plug)),
        "memory" => Some(Refusal::Memory),
        _ => None,
    }
}

/// The name of a refusal, as `refusal_named` takes it. No memory.
fn name_of(refusal: &Refusal) -> &'static str {
    match refusal {
        Refusal::NotBuilt(Unbuilt::Words) => "words",
        Refusal::Stopped => "stopped",
        Refusal::Outside(Part::Out) => "output",
        Refusal::Outside(Part::Plug) => "plug",
        Refusal::Memory => "memory",
        _ => "another",
    }
}

fn put_said(said: Option<&str>, sink: &PieceSink, answers: &mut Answers) {
    match said {
        Some(name) => answers.put_text("refusal", name),
        None => answers.put_null("refusal"),
    }
    answers.put_bytes("written", sink.written());
}
