ghost use Rattle.std.specs.Prelude.{◌≡◌, ◌<◌, ◌+◌, ◌++◌, ◌^◌, length, drop, take, IfOk, OnOk};
ghost use Rattle.yaml_lines.specs.Blanks.{is_blank};
ghost use Rattle.yaml_groups.specs.Grouped.{grouped, begins_block, belonging, with_lines};
ghost use Rattle.yaml_groups.specs.Parts.{led};

use crate::flow::{begins_flow, flow_lines};
use crate::head::head_of;
use crate::line::LogicalLine;
use crate::queue::Queue;
use std::alloc::Global;
use tree_base::{List, Memory};
use yaml_lines::{Row, block_len, is_blank, text_at};
use yaml_nodes::starts;

/// The characters behind so many; none where there are fewer.
fn behind(chars: &[char], count: usize) -> &[char]
    ensures { result.now ≡ drop count chars.now }
{
    if count <= chars.len() {
        &chars[count..]
    } else {
        &[]
    }
}

/// How many characters rows have, with a line feed for each. Memory where they can't be in memory at once.
fn room_of(rows: &[Row]) -> Result<usize, Memory>
    ensures { IfOk result (λ room. room ≡ length (led rows.now)) }
{
    let mut room = 0usize;
    for row in rows {
        let with_row = room.checked_add(row.chars.len()).ok_or(Memory)?;
        room = with_row.checked_add(1).ok_or(Memory)?;
    }
    Ok(room)
}

/// Puts the characters of rows last, each behind a line feed. Takes the room for all of them at once.
fn push_lines(chars: &mut List<char>, rows: &[Row]) -> Result<(), Memory>
    ensures { OnOk result (chars.new ≡ chars.old ++ led rows.now) }
{
    chars.reserve(room_of(rows)?)?;
    for row in rows {
        chars.push('\n')?;
        chars.extend_from_slice(row.chars.as_slice())?;
    }
    Ok(())
}

/// Whether a block scalar begins here.
fn begins_block(chars: &[char]) -> bool
    ensures { result ≡ begins_block chars.now }
{
    starts(chars, '|') || starts(chars, '>')
}

/// Whether a row has white space and a comment alone.
fn is_blank_row(row: &Row) -> bool
    ensures { result ≡ is_blank row.now.chars }
{
    is_blank(row.chars.as_slice())
}

/// How many of the rows that follow belong to a row, by its head.
fn belonging(head: (usize, usize), row: &Row, rows: &[Row]) -> usize
    requires { length row.now.chars + length (led rows.now) < 2 ^ 64 }
    ensures { result ≡ belonging head row.now rows.now }
{
    let (column, at) = head;
    let value = text_at(row, at);
    if begins_flow(value) {
        return flow_lines(behind(value, 1), rows);
    }
    if begins_block(value) {
        return block_len(rows, column);
    }
    0
}

/// A line whose value begins at a place, with the rows that belong to it.
fn with_lines(
    alloc: Global,
    value: usize,
    row: Row,
    lines: List<Row>,
) -> Result<LogicalLine, Memory>
    ensures { IfOk result (λ line. line ≡ with_lines value row lines) }
{
    if !begins_flow(text_at(&row, value)) {
        return Ok(LogicalLine {
            row,
            content: lines,
        });
    }
    let mut row = row;
    push_lines(&mut row.chars, lines.as_slice())?;
    Ok(LogicalLine {
        row,
        content: List::new(alloc),
    })
}

/// The lines that are read of a file's rows.
pub fn grouped(alloc: Global, rows: List<Row>) -> Result<List<LogicalLine>, Memory>
    ensures { IfOk result (λ lines. lines ≡ grouped 0 0 rows) }
{
    room_of(rows.as_slice())?;
    let mut rest = Queue::new(rows);
    let mut lines = List::new(alloc);
    let mut owner = 0;
    while let Some(row) = rest.next(alloc) {
        if is_blank_row(&row) {
            continue;
        }
        let (column, value) = head_of(row.chars.as_slice(), owner);
        let count = belonging((column, value), &row, rest.rows());
        let following = rest.take(alloc, count)?;
        lines.push(with_lines(alloc, value, row, following)?)?;
        owner = column;
    }
    Ok(lines)
}
