ghost use Rattle.std.specs.Prelude.{◌≤◌};
ghost use Rattle.tree_base.specs.Limits.{most_simulated};

use crate::options::options_line;
use crate::refusing::refuse;
use case_files::{Answers, Fields, Reading};
use cases_ground::is_word;
use compose_words::{
    Notice, Options, WordsRefusal, help_text, notice_of, read_words, version_text,
};
use load_maker::make;
use tree_base::limits::MOST_SIMULATED;
use tree_base::{List, Memory, Text, Tree};

/// How many words a case may have.
const MOST_WORDS: usize = 100_000;

/// The words of a case: a sequence, or one text with a space between words.
pub(crate) fn words_in(reading: &mut Reading, fields: &Fields, key: &str) -> List<Text> {
    match fields.find(key) {
        Some(Tree::Scalar(line)) => words_of(reading, line.as_str()),
        _ => reading.texts(fields, key),
    }
}

/// The words of a line; none where it is empty.
fn words_of(reading: &mut Reading, line: &str) -> List<Text> {
    let mut words = List::new(reading.alloc);
    if !line.is_empty() {
        for word in line.split(' ') {
            let word = reading.text(word);
            reading.push(&mut words, word);
        }
    }
    words
}

/// `command_line: WORDS`: the command with its `options`, in one fixed order.
pub(crate) fn command_line(fields: &Fields, answers: &mut Answers) {
    let words = words_in(&mut answers.reading, fields, "command_line");
    if words.len() < MOST_WORDS {
        let read = read_words(answers.reading.alloc, &words);
        put_options(&read, answers);
        drop(read);
    } else {
        answers.reading.refuse("there are too many words");
    }
}

fn put_options(read: &Result<Options, WordsRefusal>, answers: &mut Answers) {
    match read {
        Ok(options) => {
            answers.put_line("options", options_line(answers.reading.alloc, options));
        }
        Err(WordsRefusal::Memory) => answers.reading.memory(),
        Err(refusal) => refuse(refusal, answers),
    }
}

/// `question: WORDS`: the `notice` that they ask for, or null.
pub(crate) fn question(fields: &Fields, answers: &mut Answers) {
    let words = words_in(&mut answers.reading, fields, "question");
    match notice_of(&words) {
        Some(Notice::Help) => answers.put_text("notice", "Help"),
        Some(Notice::Version) => answers.put_text("notice", "Version"),
        None => answers.put_null("notice"),
    }
}

/// `made_project: NUMBER`: the `text` of a project of so many services, and as `lose_at` the exchange of a run whose reply is lost.
pub(crate) fn made_project(fields: &Fields, answers: &mut Answers) {
    let number = answers.reading.small_at(fields, "made_project");
    if number >= 1 && number <= MOST_SIMULATED {
        put_made(number, answers);
    } else {
        answers
            .reading
            .wants("made_project", "a number from 1 to 1000");
    }
}

fn put_made(number: u32, answers: &mut Answers)
    requires least { 1 ≤ number }
    requires most { number ≤ most_simulated }
{
    let made = make(answers.reading.alloc, number);
    if let Some(made) = answers.reading.made(made) {
        answers.put_text("text", made.text.as_str());
        answers.put_number("lose_at", made.lose_at);
        drop(made);
    }
}

/// `usage: help` or `version`: of the `pieces` those that the text `lacks`, and whether it `begins` with the `beginning`.
pub(crate) fn usage(fields: &Fields, answers: &mut Answers) {
    let text = usage_text(&mut answers.reading, fields);
    put_pieces(text.as_str(), fields, answers);
    let beginning = answers.reading.text_or(fields, "beginning", "");
    answers.put_flag("begins", text.as_str().starts_with(beginning.as_str()));
}

fn usage_text(reading: &mut Reading, fields: &Fields) -> Text {
    let text = match fields.find("usage") {
        Some(which) if is_word(which, "help") => help_text(reading.alloc),
        Some(which) if is_word(which, "version") => version_text(reading.alloc),
        _ => {
            reading.wants("usage", "help or version");
            Err(Memory)
        }
    };
    let empty = Text::new(reading.alloc);
    reading.given(text, empty)
}

fn put_pieces(text: &str, fields: &Fields, answers: &mut Answers) {
    let pieces = answers.reading.texts(fields, "pieces");
    let missing = missing_pieces(&mut answers.reading, text, pieces.as_slice());
    answers.put_texts("lacks", missing);
}

/// The pieces that a text doesn't have.
fn missing_pieces(reading: &mut Reading, text: &str, pieces: &[Text]) -> List<Text> {
    let mut missing = List::new(reading.alloc);
    for piece in pieces {
        if !text.contains(piece.as_str()) {
            let piece = reading.text(piece.as_str());
            reading.push(&mut missing, piece);
        }
    }
    missing
}
