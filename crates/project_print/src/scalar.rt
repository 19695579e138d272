ghost use Rattle.std.specs.Prelude.{◌≡◌, ◌/◌, ◌%◌, ◌<◌, [], ◌∷◌, ◌++◌, IfOk, OnOk, flat_map};
ghost use Rattle.std.specs.Char.{encode_utf8};
ghost use Rattle.std.specs.List.{list_all, list_any};
ghost use Rattle.std.specs.Str.{bytes_eq, str_to_ascii_lowercase};
ghost use Rattle.project_print.specs.Scalars.{begins_plain, doubled, doubled_byte, escaped, in_quotes, is_plain, is_plain_byte, is_plain_start, is_reserved, is_word, means_more, scalar, stands_in_quotes, upper_digit};

use std::alloc::Global;
use tree_base::{Memory, Text};

/// The words that some YAML takes for a bool or for null.
const RESERVED: [&str; 9] = ["true", "false", "null", "yes", "no", "on", "off", "y", "n"];

fn is_plain_start(byte: u8) -> bool
    ensures { result ≡ is_plain_start byte }
{
    byte.is_ascii_alphabetic() || byte == b'/'
}

fn is_plain_byte(byte: u8) -> bool
    ensures { result ≡ is_plain_byte byte }
{
    byte.is_ascii_alphanumeric() || matches!(byte, b'_' | b'-' | b'.' | b'/' | b':')
}

fn is_same_word(text: &str, word: &str) -> bool
    ensures { result ≡ bytes_eq (str_to_ascii_lowercase text.now)
        (str_to_ascii_lowercase word.now) }
{
    text.eq_ignore_ascii_case(word)
}

fn is_one_of(text: &str, words: &[&str]) -> bool
    ensures { result ≡ list_any (λ word. bytes_eq (str_to_ascii_lowercase text.now)
        (str_to_ascii_lowercase word.now)) words.now }
{
    words.iter().any(|word| is_same_word(text, word))
}

fn is_reserved(text: &str) -> bool
    ensures { result ≡ is_reserved text.now }
{
    is_one_of(text, &RESERVED)
}

fn begins_plain(bytes: &[u8]) -> bool
    ensures { result ≡ begins_plain bytes.now }
{
    match bytes {
        [] => false,
        [first, ..] => is_plain_start(*first),
    }
}

fn are_plain_bytes(bytes: &[u8]) -> bool
    ensures { result ≡ list_all is_plain_byte bytes.now }
{
    bytes.iter().all(|byte| is_plain_byte(*byte))
}

/// Whether the text has the characters of a plain word.
fn is_word(bytes: &[u8]) -> bool
    ensures { result ≡ is_word bytes.now }
{
    begins_plain(bytes) && are_plain_bytes(bytes)
}

/// Whether the text would be read as something else: as a key, as a bool or as null.
fn means_more(text: &str) -> bool
    ensures { result ≡ means_more text.now }
{
    text.as_bytes().ends_with(b":") || is_reserved(text)
}

/// Whether the text stands in a page without quotes. No memory.
fn is_plain(text: &str) -> bool
    ensures { result ≡ is_plain text.now }
{
    is_word(text.as_bytes()) && !means_more(text)
}

/// An upper-case hexadecimal digit.
fn upper_digit(value: u8) -> char
    requires { value < 16 }
    ensures { result ≡ upper_digit value }
{
    if value < 10 {
        (b'0' + value) as char
    } else {
        (b'A' + (value - 10)) as char
    }
}

fn put_hex(byte: u8, out: &mut Text) -> Result<(), Memory>
    ensures { OnOk result (out.new ≡
        out.old ++ (92 ∷ 120 ∷ upper_digit (byte / 16) ∷ upper_digit (byte % 16) ∷ [])) }
{
    out.push_str("\\x")?;
    out.push(upper_digit(byte / 16))?;
    out.push(upper_digit(byte % 16))
}

/// Puts a character last, as it stands in double quotes.
fn put_escaped(c: char, out: &mut Text) -> Result<(), Memory>
    ensures { OnOk result (out.new ≡ out.old ++ flat_map escaped (encode_utf8 c)) }
{
    match c {
        '"' => out.push_str("\\\""),
        '\\' => out.push_str("\\\\"),
        '\n' => out.push_str("\\n"),
        '\r' => out.push_str("\\r"),
        '\t' => out.push_str("\\t"),
        '\0'..='\x1F' | '\x7F' => put_hex(c as u8, out),
        _ => out.push(c),
    }
}

fn put_in_quotes(text: &str, out: &mut Text) -> Result<(), Memory>
    ensures { OnOk result (out.new ≡ out.old ++ in_quotes text.now) }
{
    out.push_str("\"")?;
    put_content(text, out)?;
    out.push_str("\"")
}

/// Puts what stands between the quotes of a text last: the text at once where nothing in it has an escape.
fn put_content(text: &str, out: &mut Text) -> Result<(), Memory>
    ensures { OnOk result (out.new ≡ out.old ++ flat_map escaped text.now) }
{
    if stand_in_quotes(text.as_bytes()) {
        return out.push_str(text);
    }
    for c in text.chars() {
        put_escaped(c, out)?;
    }
    Ok(())
}

fn stand_in_quotes(bytes: &[u8]) -> bool
    ensures { result ≡ list_all stands_in_quotes bytes.now }
{
    bytes.iter().all(|byte| stands_in_quotes(*byte))
}

/// Whether a byte stands in double quotes as it is.
fn stands_in_quotes(byte: u8) -> bool
    ensures { result ≡ stands_in_quotes byte }
{
    byte >= b' ' && byte != b'"' && byte != b'\\' && byte != 0x7F
}

/// Puts a text last, in quotes where it isn't plain.
pub(crate) fn put_scalar(text: &str, out: &mut Text) -> Result<(), Memory>
    ensures { OnOk result (out.new ≡ out.old ++ scalar text.now) }
{
    if is_plain(text) {
        out.push_str(text)
    } else {
        put_in_quotes(text, out)
    }
}

fn put_doubled(c: char, out: &mut Text) -> Result<(), Memory>
    ensures { OnOk result (out.new ≡ out.old ++ flat_map doubled_byte (encode_utf8 c)) }
{
    if c == '$' {
        out.push_str("$$")
    } else {
        out.push(c)
    }
}

/// The text with each `$` twice.
pub(crate) fn doubled(alloc: Global, text: &str) -> Result<Text, Memory>
    ensures { IfOk result (λ t. t ≡ doubled text.now) }
{
    let mut twice = Text::new(alloc);
    for c in text.chars() {
        put_doubled(c, &mut twice)?;
    }
    Ok(twice)
}
