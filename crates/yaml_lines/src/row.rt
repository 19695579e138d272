ghost use Rattle.std.specs.Prelude.{◌≡◌, ◌≤◌, ◌<◌, ◌^◌, length, map, take, IfOk};
ghost use Rattle.std.specs.Str.{chars};
ghost use Rattle.yaml_lines.specs.Rows.{place_in, text_at, row_of};

use crate::blank::spaces;
use crate::lines::{Line, Lines};
use std::alloc::Global;
use tree_base::{List, Memory, Place, Text};

/// A line by its characters: its number, how many spaces it begins with, and its characters. An index of a
/// character is its column less 1. Lines that belong together may be joined to one row by line feeds.
#[derive(Drop)]
pub struct Row {
    pub number: u32,
    pub indent: usize,
    pub chars: List<char>,
}

/// A line as a row.
pub fn row_of(alloc: Global, line: &Line) -> Result<Row, Memory>
    ensures { IfOk result (λ row. row ≡ row_of line.now) }
{
    let chars = characters(alloc, &line.text)?;
    Ok(Row {
        number: line.number,
        indent: spaces(chars.as_slice()),
        chars,
    })
}

/// All lines as rows.
pub fn rows_of(alloc: Global, lines: &Lines) -> Result<List<Row>, Memory>
    ensures { IfOk result (λ rows. rows ≡ map row_of lines.now.lines) }
{
    let mut rows = List::new(alloc);
    rows.reserve(lines.lines.len())?;
    for line in lines.lines.as_slice() {
        rows.push(row_of(alloc, line)?)?;
    }
    Ok(rows)
}

/// The characters of a text. Most lines are ASCII, of which each byte is a character.
fn characters(alloc: Global, text: &Text) -> Result<List<char>, Memory>
    ensures { IfOk result (λ l. l ≡ chars text.now) }
{
    let text = text.as_str();
    if text.is_ascii() {
        bytes_as_characters(alloc, text.as_bytes())
    } else {
        decoded(alloc, text)
    }
}

/// A character for each byte.
fn bytes_as_characters(alloc: Global, bytes: &[u8]) -> Result<List<char>, Memory>
    ensures { IfOk result (λ l. l ≡ bytes.now) }
{
    let mut chars = Vec::with_capacity(alloc, bytes.len())?;
    chars.extend(bytes.iter().map(|byte| *byte as char))?;
    Ok(List::from_vec(chars))
}

/// The characters of a text of any bytes.
fn decoded(alloc: Global, text: &str) -> Result<List<char>, Memory>
    ensures { IfOk result (λ l. l ≡ chars text.now) }
{
    let mut chars = Vec::with_capacity(alloc, text.len())?;
    chars.extend(text.chars())?;
    Ok(List::from_vec(chars))
}

/// The place of a character of a row; one past the end has the place that would come next. A number past
/// the greatest is that number.
pub fn place_in(file: u32, row: &Row, at: usize) -> Place
    ensures { result ≡ place_in file row.now at }
{
    let mut line = row.number;
    let mut column = 1u32;
    for c in text_before(row, at) {
        if *c == '\n' {
            line = line.saturating_add(1);
            column = 1;
        } else {
            column = column.saturating_add(1);
        }
    }
    Place { file, line, column }
}

/// The characters of a row before a place.
fn text_before(row: &Row, at: usize) -> &[char]
    ensures { result.now ≡ take at row.now.chars }
{
    let chars = row.chars.as_slice();
    if at <= chars.len() {
        &chars[..at]
    } else {
        chars
    }
}

/// The characters of a row from a place on.
pub fn text_at(row: &Row, at: usize) -> &[char]
    ensures is { result.now ≡ text_at row.now at }
    ensures small { length row.now.chars < 2 ^ 63 }
{
    let chars = row.chars.as_slice();
    if at <= chars.len() { &chars[at..] } else { &[] }
}
