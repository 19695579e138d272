ghost use Rattle.std.specs.Prelude.{◌≡◌, ◌↔◌, IsTrue};
ghost use Rattle.std.specs.Option.{option_copied};

use crate::answers::Answers;
use crate::case_fault::CaseFault;
use crate::fields::Fields;
use crate::line::Line;
use crate::one_line::say_tree;
use std::alloc::Global;
use tree_base::{Memory, Text, Tree};

/// A case: a call with its inputs and the answers that are wanted.
#[derive(Clone, Copy)]
pub struct Case<'c> {
    alloc: Global,
    fields: Fields<'c>,
}

impl<'c> Case<'c> {
    /// The case of a tree. NoCase where the tree is no mapping.
    pub fn of_tree(alloc: Global, tree: &'c Tree) -> Result<Case<'c>, CaseFault> {
        match tree {
            Tree::Map(entries) => Ok(Case {
                alloc,
                fields: Fields::new(entries.get()),
            }),
            _ => Err(CaseFault::no_case(alloc, "a case wants a mapping")),
        }
    }

    /// All fields. No memory.
    pub fn fields(&self) -> &Fields<'c> {
        &self.fields
    }

    /// The name of the call: the first key but `case`. NoCase where there is none.
    pub fn call(&self) -> Result<&'c Text, CaseFault> {
        for key in self.fields.entries().keys() {
            if key.as_str() != "case" {
                return Ok(key);
            }
        }
        Err(CaseFault::no_case(self.alloc, "it names no call"))
    }

    /// NoCase where no answer of the call with these further inputs is wanted.
    pub fn has_wanted(&self, call: &Text, inputs: &[&str]) -> Result<(), CaseFault> {
        for key in self.fields.entries().keys() {
            if is_wanted(key.as_str(), call.as_str(), inputs) {
                return Ok(());
            }
        }
        Err(CaseFault::no_case(self.alloc, "it wants no answer"))
    }

    /// The title of the case and the lines of its differences; None where its answers are as wanted.
    pub fn told_differences(
        &self,
        call: &Text,
        inputs: &[&str],
        answers: &Answers,
    ) -> Result<Option<Text>, CaseFault> {
        let mut lines = Line::new(self.alloc);
        self.say_differences(&mut lines, call, inputs, answers);
        self.told(call, &lines.end()?)
    }

    fn told(&self, call: &Text, lines: &Text) -> Result<Option<Text>, CaseFault> {
        if lines.is_empty() {
            return Ok(None);
        }
        let sentence = self.sentence()?;
        let mut told = Line::new(self.alloc);
        self.say_title(&mut told, call, sentence);
        told.put("\n");
        told.put(lines.as_str());
        Ok(Some(told.end()?))
    }

    /// The sentence of the case; None where it has none. NoCase where it is no text.
    fn sentence(&self) -> Result<Option<&'c Text>, CaseFault> {
        match self.fields.find("case") {
            Some(Tree::Scalar(sentence)) => Ok(Some(sentence)),
            Some(_) => Err(CaseFault::no_case(self.alloc, "`case` wants a text")),
            None => Ok(None),
        }
    }

    /// Says what the case is told by on one line: its sentence, or else its call with the beginning of its main input.
    fn say_title(&self, line: &mut Line, call: &Text, sentence: Option<&Text>) {
        match sentence {
            Some(sentence) => line.put(sentence.as_str()),
            None => {
                line.put(call.as_str());
                line.put(": ");
                self.say_input(line, call);
            }
        }
    }

    fn say_input(&self, line: &mut Line, call: &Text) {
        let mut input = Line::new(self.alloc);
        if let Some(tree) = self.fields.find(call.as_str()) {
            say_tree(&mut input, tree);
        }
        match input.end() {
            Ok(input) => say_beginning(line, input.as_str()),
            Err(Memory) => line.put(".."),
        }
    }

    /// Says how the answers differ from those that are wanted, two lines each; nothing where they don't. Wanted
    /// is each field but the sentence, the call and its further inputs; and that `refused` doesn't come, where it isn't among these.
    pub fn say_differences(
        &self,
        lines: &mut Line,
        call: &Text,
        inputs: &[&str],
        answers: &Answers,
    ) {
        let entries = self.fields.entries();
        for (key, wanted) in entries.keys().iter().zip(entries.values()) {
            if is_wanted(key.as_str(), call.as_str(), inputs) {
                let came = answers.find(key.as_str());
                compare(lines, key.as_str(), Some(wanted), came);
            }
        }
        if !self.fields.has(REFUSED) {
            compare(lines, REFUSED, None, answers.find(REFUSED));
        }
    }
}

/// Whether a field is an answer that is wanted: all are but the sentence, the call and its further inputs. No memory.
fn is_wanted(key: &str, call: &str, inputs: &[&str]) -> bool {
    for input in inputs {
        if *input == key {
            return false;
        }
    }
    key != "case" && key != call
}

/// The name of the answer that tells why a call was refused.
const REFUSED: &str = "refused";

/// Says two lines where what came isn't what was wanted.
fn compare(lines: &mut Line, name: &str, wanted: Option<&Tree>, came: Option<&Tree>) {
    if !is_same(wanted, came) {
        say_difference(lines, name, wanted, came);
    }
}

/// Whether there are two trees that are the same, or none at all. No memory.
fn is_same(wanted: Option<&Tree>, came: Option<&Tree>) -> bool
    ensures { IsTrue result ↔ (option_copied wanted.entry ≡ option_copied came.entry) }
{
    match (wanted, came) {
        (Some(wanted), Some(came)) => wanted.same(came),
        (None, None) => true,
        _ => false,
    }
}

/// Says two lines, one below the other, as
///
///     text: wanted "a"
///           came   "b"
fn say_difference(lines: &mut Line, name: &str, wanted: Option<&Tree>, came: Option<&Tree>) {
    lines.put("  ");
    lines.put(name);
    lines.put(": wanted ");
    say_tree_or_nothing(lines, wanted);
    lines.put("\n    ");
    for _ in name.chars() {
        lines.put(" ");
    }
    lines.put("came   ");
    say_tree_or_nothing(lines, came);
    lines.put("\n");
}

fn say_tree_or_nothing(line: &mut Line, tree: Option<&Tree>) {
    match tree {
        Some(tree) => say_tree(line, tree),
        None => line.put("nothing"),
    }
}

/// Says the first 60 characters of a line, and two points where there are more.
fn say_beginning(line: &mut Line, text: &str) {
    for (at, c) in text.chars().enumerate() {
        if at == 60 {
            return line.put("..");
        }
        line.put_char(c);
    }
}
