use crate::piece_sink::PieceSink;
use case_files::{Answers, Fields, Line, Lines, Reading};
use outside_files::{MemorySink, Sink, SinkAnswer};
use std::alloc::Global;
use tree_base::Map;

/// The room of a sink, in bytes, where a case doesn't say it.
const ROOM: u64 = 4096;

/// The sink of the fields `room`, `failing_writes` and `pieces`: its room in bytes, the numbers of the writes that
/// fail, from 1, and the most bytes that it takes of each piece. None, and the want of memory is kept, where there is none
/// for its room.
pub fn sink_of(reading: &mut Reading, fields: &Fields) -> Option<PieceSink> {
    let room = reading.number_or(fields, "room", ROOM);
    let pieces = reading.number_or(fields, "pieces", u64::MAX);
    let failing = reading.numbers(fields, "failing_writes");
    let sink = MemorySink::new(reading.alloc, room as usize, failing);
    Some(PieceSink::new(reading.made(sink)?, pieces as usize))
}

/// The sink under a key; one that takes all where the key isn't there.
pub fn sink_at(reading: &mut Reading, fields: &Fields, key: &str) -> Option<PieceSink> {
    match reading.fields(fields, key) {
        Some(fields) => sink_of(reading, &fields),
        None => wide_sink(reading),
    }
}

fn wide_sink(reading: &mut Reading) -> Option<PieceSink> {
    let entries = Map::new(reading.alloc);
    sink_of(reading, &Fields::new(&entries))
}

/// Writes pieces to a sink: `takes` has what each write answered, and `written` what the sink then has.
pub fn writes(fields: &Fields, answers: &mut Answers) {
    if let Some(mut sink) = sink_of(&mut answers.reading, fields) {
        let taken = write_each(&mut answers.reading, fields, &mut sink);
        answers.put_lines("takes", taken);
        answers.put_bytes("written", sink.written());
    }
}

fn write_each(reading: &mut Reading, fields: &Fields, sink: &mut PieceSink) -> Lines {
    let mut taken = Lines::new(reading.alloc);
    for tree in reading.items(fields, "writes") {
        let piece = reading.bytes_of(tree, "writes");
        taken.push(taken_line(reading.alloc, sink.write(piece.as_slice())));
    }
    taken
}

fn taken_line(alloc: Global, answer: SinkAnswer) -> Line {
    match answer {
        SinkAnswer::Took(taken) => {
            let mut line = Line::new(alloc);
            line.number(taken as u64);
            line
        }
        SinkAnswer::Failed => Line::of_word(alloc, "failed"),
    }
}
