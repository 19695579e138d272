use case_files::{Answers, Fields, Line};
use log_frames::{Cutter, FrameRefusal, LogLine, frames, part_size};
use std::alloc::Global;
use tree_base::{List, Memory};

/// The lines of a reply whose parts, each of whole frames, are cut one behind another: `printed`, each with a line feed, output behind
/// `| ` and errors behind `! `. Of a part that isn't frames what is `refused`, with its place in the part.
pub(crate) fn log_lines(fields: &Fields, answers: &mut Answers) {
    let mut printed = List::new(answers.reading.alloc);
    match print_parts(fields, answers, &mut printed) {
        Ok(()) => answers.put_bytes("printed", printed.as_slice()),
        Err(FrameRefusal::BadFrame { at }) => put_refused(answers, at),
        Err(FrameRefusal::Memory) => answers.reading.memory(),
    }
}

fn put_refused(answers: &mut Answers, at: u64) {
    let mut line = Line::of_word(answers.reading.alloc, "BadFrame");
    line.number(at);
    answers.put_line("refused", line);
}

/// Prints the lines that each part ends, and then those that no line feed ended.
fn print_parts(
    fields: &Fields,
    answers: &mut Answers,
    printed: &mut List<u8>,
) -> Result<(), FrameRefusal> {
    let alloc = answers.reading.alloc;
    let mut cutter = Cutter::new(alloc)?;
    for part in answers.reading.items(fields, "log_lines") {
        let bytes = answers.reading.bytes_of(part, "log_lines");
        print_part(alloc, &mut cutter, bytes.as_slice(), printed)?;
    }
    let rest = cutter.rest(alloc, 0)?;
    print(printed, rest.as_slice())?;
    Ok(())
}

fn print_part(
    alloc: Global,
    cutter: &mut Cutter,
    bytes: &[u8],
    printed: &mut List<u8>,
) -> Result<(), FrameRefusal> {
    let found = frames(alloc, bytes)?;
    let lines = cutter.cut(alloc, bytes, found.as_slice(), 0)?;
    print(printed, lines.as_slice())?;
    Ok(())
}

fn print(printed: &mut List<u8>, lines: &[LogLine]) -> Result<(), Memory> {
    for line in lines {
        let side = if line.is_err { b'!' } else { b'|' };
        printed.push(side)?;
        printed.push(b' ')?;
        printed.extend_from_slice(line.text.as_slice())?;
        printed.push(b'\n')?;
    }
    Ok(())
}

/// How many frames each part of a reply has that has so many: its `size`.
pub(crate) fn log_part(fields: &Fields, answers: &mut Answers) {
    let count = answers.reading.number_at(fields, "log_part");
    answers.put_number("size", part_size(count as usize) as u64);
}
