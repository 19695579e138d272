ghost use Rattle.std.specs.Prelude.{◌≡◌, ◌≤◌, ◌++◌, ◌<◌, ◌^◌, ◌+◌, Bool, length, drop, map, take, IfOk, OnOk, IfSome, None, Some};
ghost use Rattle.std.specs.Str.{encode_utf8_all};
ghost use Rattle.yaml_lines.specs.Block.{is_all_spaces, content_indent, content_len, empty_len, line_ends, begins_white, gap, joined, trailing, ending, ending_alone, content_text, block_of, with_text, lines_of_rows, is_deeper, deeper, block_at};
ghost use Rattle.yaml_lines.specs.Rows.{row_of};

use crate::blank::{is_white, spaces};
use crate::lines::{Line, Lines};
use crate::plain::with_room;
use crate::row::{Row, row_of, text_at};
use std::alloc::Global;
use tree_base::{List, Memory, Text};

/// What is kept of the line ends behind a block scalar's content: the header's `-`, nothing, and `+`.
#[derive(Clone, Copy)]
pub enum Chomp {
    Strip,
    Clip,
    Keep,
}

fn is_all_spaces(line: &[char]) -> bool
    ensures { result ≡ is_all_spaces line.now }
{
    spaces(line) == line.len()
}

/// The indentation of the content; None exactly where there is no content.
fn content_indent(rows: &[Row], parent: usize) -> Option<usize>
    ensures is { result ≡ content_indent parent (lines_of_rows rows.now) }
{
    for row in rows {
        let line = row.chars.as_slice();
        let indent = spaces(line);
        if indent != line.len() {
            return if parent < indent { Some(indent) } else { None };
        }
    }
    None
}

/// How many lines stand before the first that has another character than spaces and isn't so deep.
fn content_len(rows: &[Row], indent: usize) -> usize
    ensures is { result ≡ content_len indent (lines_of_rows rows.now) }
    ensures within { result ≤ length rows.now }
{
    for (at, row) in rows.iter().enumerate() {
        let line = row.chars.as_slice();
        let depth = spaces(line);
        if !(depth == line.len() || indent <= depth) {
            return at;
        }
    }
    rows.len()
}

/// How many lines of spaces alone stand at the front.
fn empty_len(rows: &[Row]) -> usize
    ensures is { result ≡ empty_len (lines_of_rows rows.now) }
    ensures within { result ≤ length rows.now }
{
    for (at, row) in rows.iter().enumerate() {
        if !is_all_spaces(row.chars.as_slice()) {
            return at;
        }
    }
    rows.len()
}

fn begins_white(line: &[char]) -> bool
    ensures { result ≡ begins_white line.now }
{
    match line {
        [] => false,
        [c, ..] => is_white(*c),
    }
}

fn push_line_ends(text: &mut Text, count: usize) -> Result<(), Memory>
    ensures { OnOk result (text.new ≡ text.old ++ encode_utf8_all (line_ends count)) }
{
    for _ in 0..count {
        text.push('\n')?;
    }
    Ok(())
}

fn push_chars(text: &mut Text, chars: &[char]) -> Result<(), Memory>
    ensures { OnOk result (text.new ≡ text.old ++ encode_utf8_all chars.now) }
{
    for c in chars {
        text.push(*c)?;
    }
    Ok(())
}

/// Puts what stands before a line of the content that isn't empty, behind so many empty lines.
fn push_gap(
    text: &mut Text,
    folded: bool,
    before: Option<bool>,
    empties: usize,
    line: &[char],
) -> Result<(), Memory>
    requires { empties < 2 ^ 63 }
    ensures { OnOk result
        (text.new ≡ text.old ++ encode_utf8_all (gap folded before empties line.now)) }
{
    match before {
        None => push_line_ends(text, empties),
        Some(white) => {
            if folded && !(white || begins_white(line)) {
                if empties == 0 {
                    text.push(' ')
                } else {
                    push_line_ends(text, empties)
                }
            } else {
                push_line_ends(text, empties + 1)
            }
        }
    }
}

/// How many bytes the text of lines has that lose an indentation, where each of their characters is one byte.
fn room_of(rows: &[Row], indent: usize) -> usize {
    let mut room = 0usize;
    for row in rows {
        room = room.saturating_add(row.chars.len().saturating_sub(indent).saturating_add(1));
    }
    room
}

/// The lines of the content joined, and how many empty ones stand at the end.
fn joined(alloc: Global, folded: bool, indent: usize, rows: &[Row]) -> Result<(Text, usize), Memory>
    ensures text { IfOk result (λ r. r.0
        ≡ encode_utf8_all (joined folded None 0 (map (drop indent) (lines_of_rows rows.now)))) }
    ensures empties { IfOk result (λ r. r.1
        ≡ trailing 0 (map (drop indent) (lines_of_rows rows.now))) }
    ensures few { IfOk result (λ r. r.1 ≤ length rows.now) }
{
    let mut text = with_room(alloc, room_of(rows, indent))?;
    let mut before = None;
    let mut empties = 0;
    for row in rows {
        let line = text_at(row, indent);
        if line.len() == 0 {
            empties += 1;
        } else {
            push_gap(&mut text, folded, before, empties, line)?;
            push_chars(&mut text, line)?;
            before = Some(begins_white(line));
            empties = 0;
        }
    }
    Ok((text, empties))
}

/// Puts the line ends that chomping leaves behind content, with so many empty lines at its end.
fn push_ending(text: &mut Text, chomp: Chomp, empties: usize) -> Result<(), Memory>
    requires { empties < 2 ^ 63 }
    ensures { OnOk result (text.new ≡ text.old ++ encode_utf8_all (ending chomp empties)) }
{
    match chomp {
        Chomp::Strip => Ok(()),
        Chomp::Clip => push_line_ends(text, 1),
        Chomp::Keep => push_line_ends(text, empties + 1),
    }
}

/// The text of content of an indentation.
#[tactic(auto, using(crate::proofs::BlockSteps::encodes_both))]
fn content(
    alloc: Global,
    folded: bool,
    chomp: Chomp,
    indent: usize,
    rows: &[Row],
) -> Result<Text, Memory>
    ensures { IfOk result (λ text. text
        ≡ encode_utf8_all (content_text folded chomp indent (lines_of_rows rows.now))) }
{
    let (mut text, empties) = joined(alloc, folded, indent, rows)?;
    push_ending(&mut text, chomp, empties)?;
    Ok(text)
}

/// The text of so many empty lines without content.
fn no_content(alloc: Global, chomp: Chomp, empties: usize) -> Result<Text, Memory>
    ensures { IfOk result (λ text. text ≡ encode_utf8_all (ending_alone chomp empties)) }
{
    let mut text = Text::new(alloc);
    match chomp {
        Chomp::Strip | Chomp::Clip => {}
        Chomp::Keep => push_line_ends(&mut text, empties)?,
    }
    Ok(text)
}

/// How many rows a block scalar takes whose lines begin with the first row and are deeper than `parent` spaces. Its
/// header tells nothing of that.
pub fn block_len(rows: &[Row], parent: usize) -> usize
    ensures is { (folded : Bool) (chomp : Chomp) →
        result ≡ (block_of folded chomp parent (lines_of_rows rows.now)).1 }
    ensures within { result ≤ length rows.now }
{
    match content_indent(rows, parent) {
        None => empty_len(rows),
        Some(indent) => content_len(rows, indent),
    }
}

/// The text of a block scalar whose lines begin with the first row and are deeper than `parent` spaces, and
/// how many rows it takes. `folded` is for a header `>`.
#[tactic(auto, using(crate::proofs::BlockSteps::lines_taken))]
pub fn block_of_rows(
    alloc: Global,
    rows: &[Row],
    parent: usize,
    folded: bool,
    chomp: Chomp,
) -> Result<(Text, usize), Memory>
    ensures is { IfOk result (λ read. read
        ≡ with_text (block_of folded chomp parent (lines_of_rows rows.now))) }
    ensures within { IfOk result (λ read. read.1 ≤ length rows.now) }
{
    match content_indent(rows, parent) {
        None => {
            let len = empty_len(rows);
            Ok((no_content(alloc, chomp, len)?, len))
        }
        Some(indent) => {
            let len = content_len(rows, indent);
            Ok((content(alloc, folded, chomp, indent, &rows[..len])?, len))
        }
    }
}

/// The lines from a place on.
fn lines_from(lines: &Lines, first: usize) -> &[Line]
    ensures is { result.now ≡ drop first lines.now.lines }
    ensures fits { first + length result.now < 2 ^ 64 }
{
    let lines = lines.lines.as_slice();
    if first <= lines.len() {
        &lines[first..]
    } else {
        &[]
    }
}

/// The lines as rows up to the first that has another character than spaces and isn't deeper than the parent.
fn deeper_rows(alloc: Global, lines: &[Line], parent: usize) -> Result<List<Row>, Memory>
    ensures is { IfOk result (λ rows. rows ≡ deeper parent (map row_of lines.now)) }
    ensures few { IfOk result (λ rows. length rows ≤ length lines.now) }
{
    let mut rows = List::new(alloc);
    for line in lines {
        let row = row_of(alloc, line)?;
        if !is_deeper(&row, parent) {
            return Ok(rows);
        }
        rows.push(row)?;
    }
    Ok(rows)
}

fn is_deeper(row: &Row, parent: usize) -> bool
    ensures { result ≡ is_deeper parent row.now.chars }
{
    let line = row.chars.as_slice();
    is_all_spaces(line) || parent < spaces(line)
}

/// The text of a block scalar, and the place of the line behind it. Its lines begin at the place `first` of
/// `lines`, counted from 0, behind the line of its header, and are deeper than `parent` spaces. `folded` is
/// for a header `>`. Content begins with the first line that has another character than spaces, and ends
/// before such a line that isn't so deep; without content there may be empty lines, which `Keep` keeps.
pub fn block(
    alloc: Global,
    lines: &Lines,
    first: usize,
    parent: u32,
    folded: bool,
    chomp: Chomp,
) -> Result<(Text, usize), Memory>
    ensures { IfOk result (λ read. read ≡ block_at folded chomp parent lines.now first) }
{
    let parent = parent as usize;
    let rows = deeper_rows(alloc, lines_from(lines, first), parent)?;
    let (text, len) = block_of_rows(alloc, rows.as_slice(), parent, folded, chomp)?;
    Ok((text, first + len))
}
