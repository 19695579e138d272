ghost use Rattle.std.specs.Prelude.{◌≡◌, ◌==◌, ◌||◌, [], ◌++◌, IfOk, OnOk};
ghost use Rattle.std.specs.Char.{encode_utf8};
ghost use Rattle.std.specs.Option.{option_to_list};
ghost use Rattle.short_forms.specs.Answers.{Gives, answer_of};
ghost use Rattle.short_forms.specs.Reading.{Ends, Puts, Takes, words_left};
ghost use Rattle.short_forms.specs.Words.{words_of};

use crate::form::{Form, FormRefusal};
use std::alloc::Global;
use tree_base::{List, Memory, Text};

/// The words of a command line, as `command` and `entrypoint` have them (Compose Specification, "command"): cut at
/// spaces, tabs and line ends outside quotes. Single quotes are literal. In double quotes `\"` and `\\` are escapes;
/// outside quotes a backslash takes the next character.
pub fn shell_words(alloc: Global, text: &Text) -> Result<List<Text>, FormRefusal>
    ensures { Gives result (answer_of Form.Words (words_of text.now)) }
{
    let mut reading = Reading {
        words: List::new(alloc),
        word: None,
        within: Within::Bare,
    };
    for c in text.as_str().chars() {
        step(alloc, &mut reading, c)?;
    }
    finish(alloc, reading)
}

/// What a character is read as.
#[derive(Drop, Clone, Copy)]
enum Within {
    /// Outside quotes.
    Bare,
    /// Outside quotes, behind a carriage return.
    Return,
    /// In single quotes.
    Single,
    /// In double quotes.
    Double,
    /// Behind a backslash outside quotes.
    Escape,
    /// Behind a backslash in double quotes.
    DoubleEscape,
}

/// The words that have ended, and the one that is being read.
#[derive(Drop)]
struct Reading {
    words: List<Text>,
    word: Option<Text>,
    within: Within,
}

/// Reads a character.
fn step(alloc: Global, reading: &mut Reading, c: char) -> Result<(), Memory>
    ensures { OnOk result (Takes reading.old c reading.new) }
{
    match reading.within {
        Within::Bare => bare(alloc, reading, c),
        Within::Return => behind_return(alloc, reading, c),
        Within::Single => single(alloc, reading, c),
        Within::Double => double(alloc, reading, c),
        Within::Escape => escaped(alloc, reading, c),
        Within::DoubleEscape => escaped_double(alloc, reading, c),
    }
}

/// Puts a character to the word that is being read, or begins a word with it.
fn put(alloc: Global, reading: &mut Reading, c: char, within: Within) -> Result<(), Memory>
    ensures { OnOk result (Puts reading.old (encode_utf8 c) within reading.new) }
{
    let mut word = reading.word.take().unwrap_or(Text::new(alloc));
    word.push(c)?;
    reading.word = Some(word);
    reading.within = within;
    Ok(())
}

/// Begins a word where none is being read.
fn begin(alloc: Global, reading: &mut Reading, within: Within)
    ensures { Puts reading.old [] within reading.new }
{
    let word = reading.word.take().unwrap_or(Text::new(alloc));
    reading.word = Some(word);
    reading.within = within;
}

/// Ends the word that is being read.
fn end(reading: &mut Reading) -> Result<(), Memory>
    ensures { OnOk result (Ends reading.old reading.new) }
{
    reading.within = Within::Bare;
    match reading.word.take() {
        None => Ok(()),
        Some(word) => reading.words.push(word),
    }
}

/// Reads a character outside quotes.
fn bare(alloc: Global, reading: &mut Reading, c: char) -> Result<(), Memory>
    requires { reading.old.within ≡ Within.Bare }
    ensures { OnOk result (Takes reading.old c reading.new) }
{
    if is_blank(c) {
        end(reading)
    } else if c == '\r' {
        reading.within = Within::Return;
        Ok(())
    } else if c == '\'' {
        begin(alloc, reading, Within::Single);
        Ok(())
    } else if c == '"' {
        begin(alloc, reading, Within::Double);
        Ok(())
    } else if c == '\\' {
        begin(alloc, reading, Within::Escape);
        Ok(())
    } else {
        put(alloc, reading, c, Within::Bare)
    }
}

/// Whether a character is a space, a tab or a line feed.
fn is_blank(c: char) -> bool
    ensures { result ≡ ((c == 32) || (c == 9) || (c == 10)) }
{
    c == ' ' || c == '\t' || c == '\n'
}

/// Reads a character behind a carriage return, which is a line end before a line feed.
fn behind_return(alloc: Global, reading: &mut Reading, c: char) -> Result<(), Memory>
    requires { reading.old.within ≡ Within.Return }
    ensures { OnOk result (Takes reading.old c reading.new) }
{
    if c == '\n' {
        end(reading)
    } else {
        put(alloc, reading, '\r', Within::Bare)?;
        bare(alloc, reading, c)
    }
}

/// Reads a character in single quotes.
fn single(alloc: Global, reading: &mut Reading, c: char) -> Result<(), Memory>
    requires { reading.old.within ≡ Within.Single }
    ensures { OnOk result (Takes reading.old c reading.new) }
{
    if c == '\'' {
        begin(alloc, reading, Within::Bare);
        Ok(())
    } else {
        put(alloc, reading, c, Within::Single)
    }
}

/// Reads a character in double quotes.
fn double(alloc: Global, reading: &mut Reading, c: char) -> Result<(), Memory>
    requires { reading.old.within ≡ Within.Double }
    ensures { OnOk result (Takes reading.old c reading.new) }
{
    if c == '"' {
        begin(alloc, reading, Within::Bare);
        Ok(())
    } else if c == '\\' {
        begin(alloc, reading, Within::DoubleEscape);
        Ok(())
    } else {
        put(alloc, reading, c, Within::Double)
    }
}

/// Reads a character behind a backslash outside quotes.
fn escaped(alloc: Global, reading: &mut Reading, c: char) -> Result<(), Memory>
    requires { reading.old.within ≡ Within.Escape }
    ensures { OnOk result (Takes reading.old c reading.new) }
{
    put(alloc, reading, c, Within::Bare)
}

/// Reads a character behind a backslash in double quotes, which stays but before a double quote or a backslash.
fn escaped_double(alloc: Global, reading: &mut Reading, c: char) -> Result<(), Memory>
    requires { reading.old.within ≡ Within.DoubleEscape }
    ensures { OnOk result (Takes reading.old c reading.new) }
{
    if is_escapable(c) {
        put(alloc, reading, c, Within::Double)
    } else {
        put(alloc, reading, '\\', Within::Double)?;
        put(alloc, reading, c, Within::Double)
    }
}

/// Whether a backslash in double quotes takes this character.
fn is_escapable(c: char) -> bool
    ensures { result ≡ ((c == 34) || (c == 92)) }
{
    c == '"' || c == '\\'
}

/// The words, where the text ends.
fn finish(alloc: Global, mut reading: Reading) -> Result<List<Text>, FormRefusal>
    ensures { Gives result (answer_of Form.Words (words_left reading [])) }
{
    match reading.within {
        Within::Bare => Ok(ended(reading)?),
        Within::Return => {
            put(alloc, &mut reading, '\r', Within::Bare)?;
            Ok(ended(reading)?)
        }
        _ => Err(FormRefusal::BadForm { which: Form::Words }),
    }
}

/// The words that have ended, and the one that is being read.
fn ended(reading: Reading) -> Result<List<Text>, Memory>
    ensures { IfOk result (λ words. words ≡ reading.words ++ option_to_list reading.word) }
{
    let Reading {
        mut words,
        word,
        ..
    } = reading;
    match word {
        None => Ok(words),
        Some(word) => {
            words.push(word)?;
            Ok(words)
        }
    }
}
