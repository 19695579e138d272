use std::alloc::Global;
use tree_base::{Memory, Text};

/// A line that says a value, word by word. It remembers whether memory was wanting and goes on, so that a line has one
/// exit however many words it has: `end` gives at last what was said.
#[derive(Drop)]
pub struct Line {
    alloc: Global,
    text: Text,
    begun: bool,
    failed: bool,
}

impl Line {
    /// A line on which nothing was said. No memory.
    pub fn new(alloc: Global) -> Line {
        Line {
            alloc,
            text: Text::new(alloc),
            begun: false,
            failed: false,
        }
    }

    /// A line of a word.
    pub fn of_word(alloc: Global, word: &str) -> Line {
        let mut line = Line::new(alloc);
        line.word(word);
        line
    }

    /// The line, where there was memory for all of it.
    pub fn end(self) -> Result<Text, Memory> {
        let Line { text, failed, .. } = self;
        if failed { Err(Memory) } else { Ok(text) }
    }

    /// Keeps that memory was wanted.
    pub fn fail(&mut self) {
        self.failed = true;
    }

    /// Puts a text last, as it stands.
    pub fn put(&mut self, text: &str) {
        if self.text.push_str(text).is_err() {
            self.failed = true;
        }
    }

    /// Puts a character last.
    pub fn put_char(&mut self, c: char) {
        if self.text.push(c).is_err() {
            self.failed = true;
        }
    }

    /// Puts a text last in quotes, with escapes.
    pub fn put_quoted(&mut self, text: &Text) {
        match format!(in self.alloc; "{text:?}") {
            Ok(quoted) => self.put(quoted.as_str()),
            Err(_) => self.failed = true,
        }
    }

    /// Puts the digits of a number last, as they stand.
    pub fn put_number(&mut self, number: u64) {
        match format!(in self.alloc; "{number}") {
            Ok(digits) => self.put(digits.as_str()),
            Err(_) => self.failed = true,
        }
    }

    /// Puts what parts a word from the one before it.
    fn part(&mut self) {
        if self.begun {
            self.put(" ");
        }
        self.begun = true;
    }

    /// Puts a word last, behind a space where another one stands before it.
    pub fn word(&mut self, word: &str) {
        self.part();
        self.put(word);
    }

    /// Puts a number last, as a word.
    pub fn number(&mut self, number: u64) {
        self.part();
        self.put_number(number);
    }

    /// Puts an exit code last, as a word.
    pub fn code(&mut self, code: i64) {
        match format!(in self.alloc; "{code}") {
            Ok(digits) => self.word(digits.as_str()),
            Err(_) => self.failed = true,
        }
    }

    /// Puts words last.
    pub fn words(&mut self, words: &[Text]) {
        for word in words {
            self.word(word.as_str());
        }
    }
}
