ghost use Rattle.std.specs.Prelude.{◌≡◌, ◌≤◌, ◌+◌, not, Ok, length, IfOk, if◌then◌else◌};
ghost use Rattle.yaml_flow.specs.Pieces.{is_stop, next_stop};
ghost use Rattle.yaml_lines.specs.Answers.{Gives};
ghost use Rattle.yaml_lines.specs.declared.refusal.YamlFault.TheVariants.{BadFlow};
ghost use Rattle.yaml_lines.specs.Rows.{text_at};
ghost use Rattle.yaml_nodes.specs.Marks.{starts};
ghost use Rattle.yaml_nodes.specs.Progress.{bad};

use crate::gap::next_place;
use yaml_lines::{Row, YamlFault, YamlRefusal, text_at};
use yaml_nodes::{Progress, starts};

/// A piece of a flow collection.
#[derive(Clone, Copy)]
pub struct Piece {
    /// The place of the opening bracket, at which a collection is refused that is wrong or isn't closed.
    pub bracket: usize,
    /// Where the piece ends: at a comma, at a closing bracket or at the end of the row.
    pub stop: usize,
}

/// Whether a piece ends at a place of a row, if it hasn't ended before.
pub fn is_stop(row: &Row, at: usize) -> bool
    ensures { result ≡ is_stop row.now at }
{
    match text_at(row, at) {
        [] => true,
        [c, ..] => matches!(c, ',' | ']' | '}'),
    }
}

/// Whether no piece follows this one: no comma ends it.
pub fn is_last(row: &Row, piece: Piece) -> bool
    ensures { result ≡ not (starts 44 (text_at row.now piece.stop)) }
{
    !starts(text_at(row, piece.stop), ',')
}

/// The place behind the bracket that ends the last piece of a collection; else `BadFlow`.
pub fn behind_bracket(
    progress: &Progress,
    row: &Row,
    piece: Piece,
    close: char,
) -> Result<usize, YamlRefusal>
    ensures is { Gives result (if starts close (text_at row.now piece.stop) then Ok
        (piece.stop + 1) else bad BadFlow progress.now row.now piece.bracket) }
    ensures within { IfOk result (λ end. end ≤ length row.now.chars) }
{
    if starts(text_at(row, piece.stop), close) {
        Ok(piece.stop + 1)
    } else {
        Err(progress.bad(YamlFault::BadFlow, row, piece.bracket))
    }
}

/// The place at which an empty piece ends. Refuses one that a comma ends: only the last may be empty (`BadFlow`).
pub fn empty_stop(
    progress: &Progress,
    row: &Row,
    bracket: usize,
    at: usize,
) -> Result<usize, YamlRefusal>
    ensures { Gives result (if starts 44
        (text_at row.now at) then bad BadFlow progress.now row.now bracket else Ok at) }
{
    if starts(text_at(row, at), ',') {
        Err(progress.bad(YamlFault::BadFlow, row, bracket))
    } else {
        Ok(at)
    }
}

/// The place at which a piece ends, from behind a node of it on. Refuses what else stands there (`BadFlow`).
pub fn next_stop(
    progress: &Progress,
    row: &Row,
    bracket: usize,
    end: usize,
) -> Result<usize, YamlRefusal>
    requires { end ≤ length row.now.chars }
    ensures is { Gives result (next_stop progress.now row.now bracket end) }
    ensures within { IfOk result (λ stop. stop ≤ length row.now.chars) }
{
    let at = next_place(progress, row, end, false)?;
    if is_stop(row, at) {
        Ok(at)
    } else {
        Err(progress.bad(YamlFault::BadFlow, row, bracket))
    }
}
