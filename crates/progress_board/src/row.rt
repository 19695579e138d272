ghost use Rattle.std.specs.Prelude.{◌≡◌, IfOk, OnOk};
ghost use Rattle.progress_board.specs.Lines.{cut_line, lead, rows_line, with_row};

use crate::lines::cut_line;
use std::alloc::Global;
use tree_base::{Memory, Text};

/// Of what a row is.
#[derive(Drop)]
pub(crate) enum RowOf {
    /// The exchange of a worker.
    Worker(u32),
    /// What is waited for: the container with this id.
    Container(Text),
}

/// What a call is at, since when, in milliseconds, and whether it is said already.
#[derive(Drop)]
pub(crate) struct Row {
    pub(crate) of: RowOf,
    pub(crate) words: Text,
    pub(crate) since: u64,
    pub(crate) is_said: bool,
}

impl Row {
    /// Whether it is of the exchange of a worker. No memory.
    pub(crate) fn is_of_worker(&self, number: u32) -> bool {
        match &self.of {
            RowOf::Worker(worker) => *worker == number,
            RowOf::Container(_) => false,
        }
    }

    /// Whether it is of waiting for a container. No memory.
    pub(crate) fn is_of_container(&self, id: &Text) -> bool {
        match &self.of {
            RowOf::Worker(_) => false,
            RowOf::Container(container) => container.as_str() == id.as_str(),
        }
    }
}

/// What a terminal shows of rows at a time: those that are said, joined by commas and cut.
pub(crate) fn shown_rows(alloc: Global, rows: &[Row], now: u64) -> Result<Text, Memory>
    ensures { IfOk result (λ line. line ≡ cut_line (rows_line now rows.now)) }
{
    let mut line = Text::new(alloc);
    for row in rows {
        put_row(alloc, &mut line, row, now)?;
    }
    cut_line(alloc, &line)
}

fn put_row(alloc: Global, line: &mut Text, row: &Row, now: u64) -> Result<(), Memory>
    ensures { OnOk result (line.new ≡ with_row now line.old row.now) }
{
    if !row.is_said {
        return Ok(());
    }
    let words = &row.words;
    let seconds = now.saturating_sub(row.since) / 1_000;
    let lead = lead_behind(line);
    let more = format!(in alloc; "{lead}{words} ({seconds} s)")?;
    line.push_str(more.as_str())
}

fn lead_behind(line: &Text) -> &'static str
    ensures { result.now ≡ lead line.now }
{
    if line.is_empty() { "compose: " } else { ", " }
}
