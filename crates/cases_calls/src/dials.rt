use case_files::{Answers, Line, Lines};
use outside_api::{Dial, Target};

/// Puts the dials that a plug was asked for, a line each: the worker's number, `memory` or the path of the socket, and `stop` with
/// the path of the stop file, where there is one.
pub fn put_dials(dials: &[Dial], answers: &mut Answers) {
    let alloc = answers.reading.alloc;
    let mut lines = Lines::new(alloc);
    for dial in dials {
        let mut line = Line::new(alloc);
        say_dial(&mut line, dial);
        lines.push(line);
    }
    answers.put_lines("dials", lines);
}

fn say_dial(line: &mut Line, dial: &Dial) {
    line.number(u64::from(dial.number));
    match &dial.target {
        Target::Socket(path) => line.word(path.as_str()),
        Target::InMemory => line.word("memory"),
    }
    if let Some(path) = &dial.stop_file {
        line.word("stop");
        line.word(path.as_str());
    }
}
