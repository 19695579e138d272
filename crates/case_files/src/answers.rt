use crate::line::Line;
use crate::lines::Lines;
use crate::reading::Reading;
use std::alloc::{AllocError, Global};
use std::fmt::Write;
use std::str;
use tree_base::{List, Map, Memory, Text, Tree};

/// What a call answered: trees under the names of the answers. Beside it stands what reads the call's inputs, which keeps
/// the first fault of both.
#[derive(Drop)]
pub struct Answers {
    pub reading: Reading,
    values: Map,
}

impl Answers {
    /// No answer. No memory.
    pub fn new(alloc: Global) -> Answers {
        Answers {
            reading: Reading::new(alloc),
            values: Map::new(alloc),
        }
    }

    /// What came under a name; None where nothing did. No memory.
    pub fn find(&self, name: &str) -> Option<&Tree> {
        self.values.find(name)
    }

    /// Puts an answer under its name.
    pub fn put(&mut self, name: &str, value: Tree) {
        match Text::from_str(self.reading.alloc, name) {
            Ok(name) => self.put_under(name, value),
            Err(Memory) => {
                drop(value);
                self.reading.memory();
            }
        }
    }

    /// What stood under the name is dropped by a call: a drop in place is proved variant by variant.
    fn put_under(&mut self, name: Text, value: Tree) {
        let old = self.values.put(name, value);
        if old.is_err() {
            self.reading.memory();
        }
        drop(old);
    }

    /// Puts a tree that was made, where there was memory for it.
    pub fn put_made(&mut self, name: &str, made: Result<Tree, Memory>) {
        match made {
            Ok(tree) => self.put(name, tree),
            Err(Memory) => self.reading.memory(),
        }
    }

    /// Puts a text.
    pub fn put_text(&mut self, name: &str, text: &str) {
        let text = self.reading.text(text);
        self.put(name, Tree::Scalar(text));
    }

    /// Puts a text that was said, where there was memory for it.
    pub fn put_said(&mut self, name: &str, said: Result<Text, Memory>) {
        match said {
            Ok(text) => self.put(name, Tree::Scalar(text)),
            Err(Memory) => self.reading.memory(),
        }
    }

    /// Puts a line, where there was memory for all of it.
    pub fn put_line(&mut self, name: &str, line: Line) {
        self.put_said(name, line.end());
    }

    /// Puts a text that was printed, where there was memory for it.
    pub fn put_printed(&mut self, name: &str, printed: Result<String, AllocError>) {
        match printed {
            Ok(text) => self.put(name, Tree::Scalar(Text::from_string(text))),
            Err(_) => self.reading.memory(),
        }
    }

    /// Puts bytes: as a text where they are UTF-8, else as `{bytes: "ff 41"}`.
    pub fn put_bytes(&mut self, name: &str, bytes: &[u8]) {
        match str::from_utf8(bytes) {
            Ok(text) => self.put_text(name, text),
            Err(_) => {
                let digits = hexadecimal_tree(self.reading.alloc, bytes);
                self.put_made(name, digits);
            }
        }
    }

    /// Puts a number, in decimal.
    pub fn put_number(&mut self, name: &str, number: u64) {
        self.put_printed(name, format!(in self.reading.alloc; "{number}"));
    }

    /// Puts `true` or `false`.
    pub fn put_flag(&mut self, name: &str, flag: bool) {
        self.put_text(name, if flag { "true" } else { "false" });
    }

    /// Puts what a test told, where there was memory for it.
    pub fn put_told(&mut self, name: &str, told: Result<bool, Memory>) {
        match told {
            Ok(flag) => self.put_flag(name, flag),
            Err(Memory) => self.reading.memory(),
        }
    }

    /// Puts a sequence of texts.
    pub fn put_texts(&mut self, name: &str, texts: List<Text>) {
        let alloc = self.reading.alloc;
        let mut items = List::new(alloc);
        for text in texts.into_vec() {
            self.reading.push(&mut items, Tree::Scalar(text));
        }
        self.put_made(name, Tree::sequence(alloc, items));
    }

    /// Puts lines as a sequence of texts, where there was memory for all of them.
    pub fn put_lines(&mut self, name: &str, lines: Lines) {
        match lines.end() {
            Ok(texts) => self.put_texts(name, texts),
            Err(Memory) => self.reading.memory(),
        }
    }

    /// Puts null.
    pub fn put_null(&mut self, name: &str) {
        self.put(name, Tree::Null);
    }

    /// Puts why the call was refused, under `refused`.
    pub fn refuse(&mut self, words: &str) {
        self.put_text("refused", words);
    }
}

/// `{bytes: DIGITS}`
fn hexadecimal_tree(alloc: Global, bytes: &[u8]) -> Result<Tree, Memory> {
    let digits = hexadecimal(alloc, bytes)?;
    let key = Text::from_str(alloc, "bytes")?;
    let mut entries = Map::new(alloc);
    let old = entries.put(key, Tree::Scalar(digits));
    let put = old.is_ok();
    drop(old);
    if put {
        Tree::mapping(alloc, entries)
    } else {
        Err(Memory)
    }
}

/// Two digits a byte, with a space between bytes.
fn hexadecimal(alloc: Global, bytes: &[u8]) -> Result<Text, Memory> {
    let mut digits = String::new(alloc);
    for (at, byte) in bytes.iter().enumerate() {
        if at > 0 {
            digits.push_str(" ")?;
        }
        write!(digits, "{byte:02x}")?;
    }
    Ok(Text::from_string(digits))
}
