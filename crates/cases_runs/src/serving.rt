use case_files::{Answers, Fields, Line, Lines, Reading};
use cases_messages::{read_request, reply_line};
use cases_values::{engine_lines, memory_engine_of};
use engine_types::Reply;
use memory_engine::MemoryEngine;
use std::alloc::Global;
use tree_base::{Memory, Text};

/// Serves requests one after another on an Engine in memory (absent: a fresh one), where `tick` is a tick of its script:
/// `replies`, a line each, what the Engine holds `after` them, and how many ticks are `left`.
pub(crate) fn serve(fields: &Fields, answers: &mut Answers) {
    let project = Text::new(answers.reading.alloc);
    if let Some(mut memory) = memory_at(&mut answers.reading, fields, &project) {
        serve_on(fields, &mut memory, answers);
        drop(memory);
    }
}

fn serve_on(fields: &Fields, memory: &mut MemoryEngine, answers: &mut Answers) {
    let replies = replies_of(&mut answers.reading, fields, memory);
    answers.put_lines("replies", replies);
    let after = engine_lines(answers.reading.alloc, &memory.engine);
    answers.put_lines("after", after);
    answers.put_number("left", memory.script.len() as u64);
}

/// The Engine in memory of a case, a fresh one where the case has none; None, which is kept, where there can be none.
pub(crate) fn memory_at(
    reading: &mut Reading,
    fields: &Fields,
    project: &Text,
) -> Option<MemoryEngine> {
    match reading.fields(fields, "engine") {
        Some(fields) => memory_engine_of(reading, &fields, project),
        None => {
            let fresh = MemoryEngine::fresh(reading.alloc);
            reading.made(fresh)
        }
    }
}

fn replies_of(reading: &mut Reading, fields: &Fields, memory: &mut MemoryEngine) -> Lines {
    let mut replies = Lines::new(reading.alloc);
    for tree in reading.items(fields, "serve") {
        let line = reading.text_of(tree, "serve");
        replies.push(reply_to(reading, memory, line.as_str()));
    }
    replies
}

/// What a line is answered.
fn reply_to(reading: &mut Reading, memory: &mut MemoryEngine, line: &str) -> Line {
    if line == "tick" {
        memory.tick();
        Line::of_word(reading.alloc, "ticked")
    } else {
        let request = read_request(reading, line);
        let served = memory.serve(reading.alloc, &request);
        drop(request);
        served_line(reading.alloc, served)
    }
}

fn served_line(alloc: Global, served: Result<Reply, Memory>) -> Line {
    let line = match &served {
        Ok(reply) => reply_line(alloc, reply),
        Err(Memory) => Line::of_word(alloc, "memory"),
    };
    drop(served);
    line
}
