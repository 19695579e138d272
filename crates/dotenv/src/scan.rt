ghost use Rattle.std.specs.Prelude.{◌≡◌, ◌≤◌, length, take, IfOk, false};
ghost use Rattle.std.specs.Str.{encode_utf8_all};
ghost use Rattle.dotenv.specs.Characters.{is_blank, blanks_len, starts_key, goes_on_key, run_len, key_len, plain_len, trimmed_len, trimmed};

use std::alloc::Global;
use tree_base::{Memory, Text};

/// A space or a tab.
fn is_blank(c: char) -> bool
    ensures { result ≡ is_blank c }
{
    c == ' ' || c == '\t'
}

/// How many spaces and tabs stand in front.
pub fn blanks_len(chars: &[char]) -> usize
    ensures is { result ≡ blanks_len chars.now }
    ensures within { result ≤ length chars.now }
{
    for (at, c) in chars.iter().enumerate() {
        if !is_blank(*c) {
            return at;
        }
    }
    chars.len()
}

fn starts_key(c: char) -> bool
    ensures { result ≡ starts_key c }
{
    c.is_ascii_alphabetic() || c == '_'
}

fn goes_on_key(c: char) -> bool
    ensures { result ≡ goes_on_key c }
{
    c.is_ascii_alphanumeric() || (c == '_' || (c == '.' || c == '-'))
}

fn run_len(chars: &[char]) -> usize
    ensures is { result ≡ run_len chars.now }
    ensures within { result ≤ length chars.now }
{
    for (at, c) in chars.iter().enumerate() {
        if !goes_on_key(*c) {
            return at;
        }
    }
    chars.len()
}

/// How long the key is that stands in front, 0 where none does.
pub fn key_len(chars: &[char]) -> usize
    ensures is { result ≡ key_len chars.now }
    ensures within { result ≤ length chars.now }
{
    match chars {
        [] => 0,
        [c, rest @ ..] => { if starts_key(*c) { run_len(rest) + 1 } else { 0 } }
    }
}

/// How many characters stand before a `#` behind a space or tab.
pub fn plain_len(chars: &[char]) -> usize
    ensures is { result ≡ plain_len false chars.now }
    ensures within { result ≤ length chars.now }
{
    let mut blank = false;
    for (at, c) in chars.iter().enumerate() {
        if blank && *c == '#' {
            return at;
        }
        blank = is_blank(*c);
    }
    chars.len()
}

/// How long the characters are without the spaces and tabs at their end.
fn trimmed_len(chars: &[char]) -> usize
    ensures is { result ≡ trimmed_len chars.now }
    ensures within { result ≤ length chars.now }
{
    let mut end = 0;
    for (at, c) in chars.iter().enumerate() {
        if !is_blank(*c) {
            end = at + 1;
        }
    }
    end
}

/// The text of characters.
pub fn text_of(alloc: Global, chars: &[char]) -> Result<Text, Memory>
    ensures { IfOk result (λ text. text ≡ encode_utf8_all chars.now) }
{
    let mut text = Text::new(alloc);
    for c in chars {
        text.push(*c)?;
    }
    Ok(text)
}

/// The text of characters without the spaces and tabs around them.
pub fn trimmed(alloc: Global, chars: &[char]) -> Result<Text, Memory>
    ensures { IfOk result (λ text. text ≡ encode_utf8_all (trimmed chars.now)) }
{
    let (_, inner) = chars.split_at(blanks_len(chars));
    let (inner, _) = inner.split_at(trimmed_len(inner));
    text_of(alloc, inner)
}
