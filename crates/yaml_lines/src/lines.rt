ghost use Rattle.std.specs.Prelude.{◌≡◌, ◌≤◌, length, min, take, IfOk};
ghost use Rattle.std.specs.Str.Lines.{lines};
ghost use Rattle.tree_base.specs.Limits.{greatest_place};
ghost use Rattle.yaml_lines.specs.Answers.{Gives};
ghost use Rattle.yaml_lines.specs.Blanks.{spaces};
ghost use Rattle.yaml_lines.specs.Scan.{starts_with_byte, is_control, clean_len, place_of_byte, without_mark, numbered, line_of, scan_of};

use crate::refusal::{YamlFault, YamlRefusal};
use std::alloc::Global;
use std::str;
use tree_base::{List, Memory, Place, Text};

/// A line of a file without its end.
#[derive(Drop)]
pub struct Line {
    /// From 1.
    pub number: u32,
    /// How many spaces it begins with.
    pub indent: u32,
    pub text: Text,
}

/// The lines of a file.
#[derive(Drop)]
pub struct Lines {
    /// The number of the file among those that were read, from 0.
    pub file: u32,
    pub lines: List<Line>,
}

/// The lines of a file's bytes. A leading byte order mark is skipped; lines end with LF or CRLF, the last
/// may have no end. Refuses the first byte that is no UTF-8 (`BadUtf8`) or a control character
/// (`BadScalar`: below U+0020, other than tab, LF and the CR of CRLF), whichever comes first. Lines and
/// columns past the greatest number have that number.
pub fn scan(alloc: Global, bytes: &[u8], file: u32) -> Result<Lines, YamlRefusal>
    ensures { Gives result (scan_of file bytes.now) }
{
    let bytes = skip_mark(bytes);
    match str::from_utf8(bytes) {
        Ok(text) => {
            let clean = clean_len(bytes);
            if clean < bytes.len() {
                return Err(bad_at(YamlFault::BadScalar, file, bytes, clean));
            }
            let lines = cut(alloc, text)?;
            Ok(Lines { file, lines })
        }
        Err(error) => {
            let valid = error.valid_up_to();
            let clean = clean_len(&bytes[..valid]);
            if clean < valid {
                return Err(bad_at(YamlFault::BadScalar, file, bytes, clean));
            }
            Err(bad_at(YamlFault::BadUtf8, file, bytes, valid))
        }
    }
}

fn skip_mark(bytes: &[u8]) -> &[u8]
    ensures { result.now ≡ without_mark bytes.now }
{
    match bytes {
        [a, b, c, rest @ ..] => {
            if *a == 0xEF && *b == 0xBB && *c == 0xBF {
                rest
            } else {
                bytes
            }
        }
        _ => bytes,
    }
}

fn is_control(byte: u8, after: &[u8]) -> bool
    ensures { result ≡ is_control byte after.now }
{
    byte < 32 && !(byte == 9 || byte == 10 || (byte == 13 && starts_with(10, after)))
}

fn starts_with(byte: u8, bytes: &[u8]) -> bool
    ensures { result ≡ starts_with_byte byte bytes.now }
{
    match bytes {
        [] => false,
        [first, ..] => *first == byte,
    }
}

/// How many bytes stand before the first control character.
fn clean_len(bytes: &[u8]) -> usize
    ensures is { result ≡ clean_len bytes.now }
    ensures within { result ≤ length bytes.now }
{
    for (at, byte) in bytes.iter().enumerate() {
        if is_control(*byte, &bytes[at + 1..]) {
            return at;
        }
    }
    bytes.len()
}

/// The place of a byte.
fn place_at(file: u32, bytes: &[u8], at: usize) -> Place
    requires { at ≤ length bytes.now }
    ensures { result ≡ place_of_byte file bytes.now at }
{
    let mut line = 1u32;
    let mut column = 1u32;
    for byte in &bytes[..at] {
        if *byte == 10 {
            line = line.saturating_add(1);
            column = 1;
        } else if !(*byte > 127 && *byte < 192) {
            column = column.saturating_add(1);
        }
    }
    Place { file, line, column }
}

fn bad_at(which: YamlFault, file: u32, bytes: &[u8], at: usize) -> YamlRefusal
    requires { at ≤ length bytes.now }
    ensures { result ≡ YamlRefusal.Bad which (place_of_byte file bytes.now at) }
{
    YamlRefusal::Bad {
        which,
        place: place_at(file, bytes, at),
    }
}

/// How many spaces stand at the front; a number past the greatest is that number.
fn indent(bytes: &[u8]) -> u32
    ensures { result ≡ min (spaces bytes.now) greatest_place }
{
    let mut indent = 0u32;
    for byte in bytes {
        if *byte != b' ' {
            return indent;
        }
        indent = indent.saturating_add(1);
    }
    indent
}

/// A line with its number and its indentation.
fn line_of(alloc: Global, number: u32, text: &str) -> Result<Line, Memory>
    ensures { IfOk result (λ line. line ≡ line_of number text.now) }
{
    Ok(Line {
        number,
        indent: indent(text.as_bytes()),
        text: Text::from_str(alloc, text)?,
    })
}

/// The lines of a text, with their numbers.
fn cut(alloc: Global, text: &str) -> Result<List<Line>, Memory>
    ensures { IfOk result (λ l. l ≡ numbered 1 (lines text.now)) }
{
    let mut done = List::new(alloc);
    let mut number = 1u32;
    for line in text.lines() {
        done.push(line_of(alloc, number, line)?)?;
        number = number.saturating_add(1);
    }
    Ok(done)
}
