use crate::line::Line;
use std::alloc::Global;
use tree_base::{List, Memory, Text};

/// Lines that say values one after another. They remember whether memory was wanting and go on, as a line does.
#[derive(Drop)]
pub struct Lines {
    lines: List<Text>,
    failed: bool,
}

impl Lines {
    /// No line. No memory.
    pub fn new(alloc: Global) -> Lines {
        Lines {
            lines: List::new(alloc),
            failed: false,
        }
    }

    /// Puts a line last.
    pub fn push(&mut self, line: Line) {
        self.push_text(line.end());
    }

    /// Puts a text last as a line, where there was memory for it.
    pub fn push_text(&mut self, text: Result<Text, Memory>) {
        match text {
            Ok(text) => self.keep(text),
            Err(Memory) => self.failed = true,
        }
    }

    fn keep(&mut self, text: Text) {
        if self.lines.push(text).is_err() {
            self.failed = true;
        }
    }

    /// The lines, where there was memory for all of them.
    pub fn end(self) -> Result<List<Text>, Memory> {
        let Lines { lines, failed } = self;
        if failed { Err(Memory) } else { Ok(lines) }
    }
}
