ghost use Rattle.std.specs.Prelude.{◌≡◌, ◌++◌, IfOk, map};
ghost use Rattle.std.specs.Option.{option_map};
ghost use Rattle.run_model.specs.Shown.{shown};
ghost use Rattle.hints.specs.Words.{command_words, is_one_of, is_option, known_near, long_words, name_in, question_words, short_words, unknown_words, word_hint, word_words};

use crate::near::{meant_words, near};
use run_lookups::shown;
use std::alloc::Global;
use tree_base::{Memory, Text};

/// The longest word of which anything is said, in bytes.
const MOST_SAID: usize = 64;

/// The commands, in the order of their table.
static COMMANDS: [&str; 7] = [
    "config",
    "up",
    "down",
    "simulate",
    "wait",
    "logs",
    "enginesim",
];

/// The long names of options, in the order of their table.
static LONG: [&str; 19] = [
    "--file",
    "--project-name",
    "--project-directory",
    "--profile",
    "--env-file",
    "--parallel",
    "--socket",
    "--memory",
    "--stop-file",
    "--format",
    "--quiet",
    "--detach",
    "--remove-orphans",
    "--wait",
    "--wait-timeout",
    "--volumes",
    "--timeout",
    "--scale",
    "--connections",
];

/// The short names of options, in the order of their table.
static SHORT: [&str; 6] = ["-f", "-p", "-q", "-d", "-v", "-t"];

/// The words that ask about the program.
static QUESTIONS: [&str; 3] = ["--help", "-h", "--version"];

#[tactic(auto, unfolding(compose_words::specs::Table::command_table))]
fn commands() -> &'static [&'static str]
    ensures { map (λ word. word.now) result.now ≡ command_words }
{
    &COMMANDS
}

#[tactic(auto, unfolding(compose_words::specs::Table::option_table))]
fn long_names() -> &'static [&'static str]
    ensures { map (λ word. word.now) result.now ≡ long_words }
{
    &LONG
}

#[tactic(auto, unfolding(compose_words::specs::Table::option_table))]
fn short_names() -> &'static [&'static str]
    ensures { map (λ word. word.now) result.now ≡ short_words }
{
    &SHORT
}

fn questions() -> &'static [&'static str]
    ensures { map (λ word. word.now) result.now ≡ question_words }
{
    &QUESTIONS
}

/// What is said of a word of the command line that is refused as unknown: that it is empty, a second command, an option of another one
/// or a question that stands beside other words, else which known word is near it, else that it is none. Nothing is said of a word of
/// more than 64 bytes.
pub fn word_hint(alloc: Global, word: &str) -> Result<Option<Text>, Memory>
    ensures { IfOk result (λ hint. hint ≡ word_hint word.now) }
{
    if word.len() > MOST_SAID {
        return Ok(None);
    }
    let words = word_words(alloc, word)?;
    Ok(Some(words))
}

fn word_words(alloc: Global, word: &str) -> Result<Text, Memory>
    ensures { IfOk result (λ words. words ≡ word_words word.now) }
{
    if word.len() == 0 {
        Text::from_str(alloc, "the word is empty")
    } else if is_one_of(word, commands()) {
        behind(alloc, word, " is a second command")
    } else if is_option(word) {
        behind(alloc, word, " isn't an option of this command")
    } else if is_one_of(word, questions()) {
        behind(alloc, word, " has to stand alone")
    } else {
        unknown_words(alloc, word)
    }
}

/// What is said of a word that is neither a command nor an option.
fn unknown_words(alloc: Global, word: &str) -> Result<Text, Memory>
    ensures { IfOk result (λ words.
        words ≡ unknown_words word.now (known_near (name_in word.now))) }
{
    match known_near(alloc, name_in(word))? {
        Some(known) => meant_words(alloc, word, known),
        None => behind(alloc, word, " is neither a command nor an option"),
    }
}

fn behind(alloc: Global, word: &str, words: &str) -> Result<Text, Memory>
    ensures { IfOk result (λ all. all ≡ shown word.now ++ words.now) }
{
    let word = shown(alloc, word)?;
    let all = format!(in alloc; "{word}{words}")?;
    Ok(Text::from_string(all))
}

/// The command, else the long name of an option, that is near a word.
fn known_near(alloc: Global, word: &str) -> Result<Option<&'static str>, Memory>
    ensures { IfOk result (λ found.
        option_map (λ known. known.now) found ≡ known_near word.now) }
{
    match near(alloc, word, commands())? {
        Some(known) => Ok(Some(known)),
        None => near(alloc, word, long_names()),
    }
}

/// What stands before the first `=`, or all of the word.
fn name_in(word: &str) -> &str
    ensures { result.now ≡ name_in word.now }
{
    match word.split_once('=') {
        Some((name, _)) => name,
        None => word,
    }
}

fn is_option(word: &str) -> bool
    ensures { result ≡ is_option word.now }
{
    is_one_of(word, long_names()) || is_one_of(word, short_names())
}

fn is_one_of(word: &str, known: &[&str]) -> bool
    ensures { result ≡ is_one_of word.now (map (λ other. other.now) known.now) }
{
    for other in known {
        if *other == word {
            return true;
        }
    }
    false
}
