use case_files::{Answers, Fields, Line, Lines};
use event_watch::{Event, EventReader, EventRefusal};
use std::alloc::Global;
use tree_base::Memory;

/// What a body of events tells that comes in pieces of the sizes under `pieces` and its rest at once, or byte by byte where
/// `bytewise` is true: the events that were `told`, each as its id and its action, of which one is taken behind each piece; and the
/// `refusal` of its first bad line, with the place, or null.
pub(crate) fn events(fields: &Fields, answers: &mut Answers) {
    let alloc = answers.reading.alloc;
    let body = answers.reading.bytes_at(fields, "events");
    let mut pieces = answers.reading.numbers(fields, "pieces");
    if answers.reading.flag(fields, "bytewise") {
        for _ in body.as_slice() {
            answers.reading.push(&mut pieces, 1);
        }
    }
    match EventReader::new(alloc) {
        Ok(reader) => put_events(reader, body.as_slice(), pieces.as_slice(), answers),
        Err(Memory) => answers.reading.memory(),
    }
}

fn put_events(mut reader: EventReader, body: &[u8], pieces: &[u64], answers: &mut Answers) {
    let alloc = answers.reading.alloc;
    let mut told = Lines::new(alloc);
    let fed = feed_all(alloc, &mut reader, body, pieces, &mut told);
    // A line has a byte at least, so no more events are left than bytes.
    for _ in body {
        take_one(alloc, &mut reader, &mut told);
    }
    answers.put_lines("told", told);
    put_refusal(fed, answers);
}

/// Feeds the body, and takes one event behind each piece.
fn feed_all(
    alloc: Global,
    reader: &mut EventReader,
    body: &[u8],
    pieces: &[u64],
    told: &mut Lines,
) -> Result<(), EventRefusal> {
    let mut left = body;
    for size in pieces {
        let (piece, more) = left.split_at(left.len().min(*size as usize));
        reader.feed(alloc, piece)?;
        take_one(alloc, reader, told);
        left = more;
    }
    reader.feed(alloc, left)
}

fn take_one(alloc: Global, reader: &mut EventReader, told: &mut Lines) {
    if let Some(event) = reader.take() {
        told.push(event_line(alloc, &event));
    }
}

fn event_line(alloc: Global, event: &Event) -> Line {
    let mut line = Line::of_word(alloc, event.id.as_str());
    line.word(event.action.as_str());
    line
}

fn put_refusal(fed: Result<(), EventRefusal>, answers: &mut Answers) {
    match fed {
        Ok(()) => answers.put_null("refusal"),
        Err(EventRefusal::BadEvent { at }) => put_place("BadEvent", at, answers),
        Err(EventRefusal::TooLong { at }) => put_place("TooLong", at, answers),
        Err(EventRefusal::Memory) => answers.reading.memory(),
    }
}

fn put_place(word: &str, at: u64, answers: &mut Answers) {
    let mut line = Line::of_word(answers.reading.alloc, word);
    line.number(at);
    answers.put_line("refusal", line);
}
