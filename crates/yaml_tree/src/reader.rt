ghost use Rattle.std.specs.Prelude.{◌≡◌};
ghost use Rattle.yaml_lines.specs.Answers.{Gives};
ghost use Rattle.yaml_tree.specs.Reading.{is_start, behind_start, document, reading};

use crate::node::below;
use crate::owner::Owner;
use std::alloc::Global;
use tree_base::limits::MOST_LEVELS;
use tree_base::{List, Tree};
use yaml_groups::{LogicalLine, grouped};
use yaml_lines::{Lines, Row, YamlRefusal, is_rest_blank, rows_of};
use yaml_nodes::{Progress, no_properties};

/// Whether a line is `---` with a comment at most (YAML 1.2, chapter 9.1.4).
fn is_start(chars: &[char]) -> bool
    ensures { result ≡ is_start chars.now }
{
    match chars {
        ['-', '-', '-', rest @ ..] => is_rest_blank(rest, false),
        _ => false,
    }
}

/// The lines behind a leading `---`.
fn behind_start(lines: &[LogicalLine]) -> &[LogicalLine]
    ensures { result.now ≡ behind_start lines.now }
{
    match lines {
        [line, more @ ..] if is_start(line.row.chars.as_slice()) => more,
        _ => lines,
    }
}

/// The tree of the lines that are read of a file, with so many levels for it.
fn document(
    alloc: Global,
    levels: u32,
    file: u32,
    lines: &[LogicalLine],
) -> Result<Tree, YamlRefusal>
    ensures { Gives result (document levels file lines.now) }
{
    let row = Row {
        number: 1,
        indent: 0,
        chars: List::new(alloc),
    };
    let owner = Owner {
        row: &row,
        column: 0,
        is_key: false,
    };
    let mut progress = Progress::new(alloc, file);
    let found = no_properties();
    below(
        alloc,
        &mut progress,
        levels,
        &owner,
        found,
        behind_start(lines),
    )
}

/// The tree that lines spell, of at most 64 levels. Refuses the first part that is wrong, at its place.
pub fn read(alloc: Global, lines: &Lines) -> Result<Tree, YamlRefusal>
    ensures { Gives result (reading lines.now) }
{
    let rows = rows_of(alloc, lines)?;
    let grouped = grouped(alloc, rows)?;
    document(alloc, MOST_LEVELS, lines.file, grouped.as_slice())
}
