ghost use Rattle.std.specs.Prelude.{◌≡◌, ℕ, true, ◌<◌, ◌==◌, ◌^◌, Err, length, is_some, IfOk, IfSome, OnOk};
ghost use Rattle.std.specs.List.{list_all, position};
ghost use Rattle.std.specs.Option.{option_map};
ghost use Rattle.std.specs.Str.{is_utf8};
ghost use Rattle.compose.specs.Given.{IsFirstUnread, is_subject, text_in, value_given, variables_in, with_setting, with_value, words_given};

use crate::process::Process;
use compose_words::WordsRefusal;
use std::alloc::Global;
use tree_base::limits::MOST_WORDS;
use tree_base::{Env, List, Memory, Text};

/// The value of a variable that isn't UTF-8, where it says what a call is about.
pub(crate) const UNREAD: &str = "\u{FFFD}";

/// The words of the command line: those behind the program's name. The first that isn't UTF-8 is unknown, at its
/// place; else memory was wanted.
pub(crate) fn words<P: Process>(alloc: Global, process: &P) -> Result<List<Text>, WordsRefusal>
    ensures words { IfSome (P.told process.now) (λ given. IfOk result (λ words.
        (words ≡ words_given given) × (list_all is_utf8 (words_given given) ≡ true))) }
    ensures unknown { (at : ℕ) → result ≡ Err (WordsRefusal.UnknownWord at)
        → IfSome (P.told process.now) (λ given. IsFirstUnread (words_given given) at) }
    ensures count { IfOk result (λ words. length words < 2 ^ 32) }
{
    let all = process.words(alloc)?;
    match all.as_slice() {
        [] => Ok(List::new(alloc)),
        [_, words @ ..] => texts_of(alloc, words),
    }
}

/// The texts that words are.
fn texts_of(alloc: Global, words: &[List<u8>]) -> Result<List<Text>, WordsRefusal>
    ensures texts { IfOk result (λ texts.
        (texts ≡ words.now) × (list_all is_utf8 words.now ≡ true)) }
    ensures unknown { (at : ℕ) → result ≡ Err (WordsRefusal.UnknownWord at)
        → IsFirstUnread words.now at }
    ensures count { IfOk result (λ texts. length texts < 2 ^ 32) }
{
    if words.len() > MOST_WORDS {
        return Err(WordsRefusal::Memory);
    }
    let mut texts = List::new(alloc);
    for (at, word) in words.iter().enumerate() {
        let Some(word) = text_in(word.as_slice()) else {
            return Err(WordsRefusal::UnknownWord { at: at as u32 });
        };
        texts.push(Text::from_str(alloc, word)?)?;
    }
    Ok(texts)
}

/// The variables of the process, also those with an empty value. One that isn't UTF-8 is left out, but for those that
/// say which Engine, which project or which directory a call is about: these have the replacement character.
pub(crate) fn variables<P: Process>(alloc: Global, process: &P) -> Result<Env, Memory>
    ensures { IfSome (P.told process.now) (λ given. IfOk result (λ variables.
        variables ≡ variables_in given.variables)) }
{
    let entries = process.variables(alloc)?;
    let mut variables = Env::new(alloc);
    for entry in entries.as_slice() {
        put_entry(alloc, &mut variables, entry.as_slice())?;
    }
    Ok(variables)
}

/// Puts what an entry `NAME=VALUE` says.
fn put_entry(alloc: Global, variables: &mut Env, entry: &[u8]) -> Result<(), Memory>
    ensures { OnOk result (variables.new ≡ with_setting variables.old entry.now) }
{
    match place_of_sign(entry) {
        Some(at) => put_value(alloc, variables, &entry[..at], &entry[at + 1..]),
        None => Ok(()),
    }
}

/// Where the first `=` stands.
fn place_of_sign(entry: &[u8]) -> Option<usize>
    ensures value { result ≡ position (λ b. b == 61) entry.now }
    ensures within { IfSome result (λ at. at < length entry.now) }
{
    entry.iter().position(|byte| *byte == b'=')
}

fn put_value(alloc: Global, variables: &mut Env, name: &[u8], value: &[u8]) -> Result<(), Memory>
    ensures { OnOk result (variables.new
        ≡ with_value variables.old (text_in name.now) (value_given name.now value.now)) }
{
    let Some(name) = text_in(name) else {
        return Ok(());
    };
    let Some(value) = value_given(name, value) else {
        return Ok(());
    };
    let name = Text::from_str(alloc, name)?;
    let value = Text::from_str(alloc, value)?;
    variables.put(name, value)?;
    Ok(())
}

fn value_given<'a>(name: &str, value: &'a [u8]) -> Option<&'a str>
    ensures { option_map (λ text. text.now) result ≡ value_given name.now value.now }
{
    match text_in(value) {
        Some(value) => Some(value),
        None if is_subject(name) => Some(UNREAD),
        None => None,
    }
}

/// Whether a variable says which Engine, which project or which directory a call is about.
fn is_subject(name: &str) -> bool
    ensures { result ≡ is_subject name.now }
{
    name == "DOCKER_HOST" || name == "COMPOSE_PROJECT_NAME" || name == "PWD"
}

/// The text that bytes are, if they are UTF-8.
pub(crate) fn text_in(bytes: &[u8]) -> Option<&str>
    ensures text { option_map (λ text. text.now) result ≡ text_in bytes.now }
    ensures same { IfSome result (λ text. text.now ≡ bytes.now) }
    ensures utf8 { is_some result ≡ is_utf8 bytes.now }
{
    match str::from_utf8(bytes) {
        Ok(text) => Some(text),
        Err(_) => None,
    }
}
