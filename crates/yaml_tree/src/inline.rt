ghost use Rattle.std.specs.Prelude.{◌≡◌, ◌≤◌, length, IfOk};
ghost use Rattle.yaml_groups.specs.Grouped.{begins_flow, begins_block};
ghost use Rattle.yaml_lines.specs.Answers.{Gives};
ghost use Rattle.yaml_nodes.specs.Progress.{result_beside, result_left};
ghost use Rattle.yaml_tree.specs.Inline.{inline, is_scalar, alone, inline_alone, goes_on_at};

use crate::owner::Owner;
use crate::parts::begun;
use std::alloc::Global;
use tree_base::Tree;
use yaml_flow::flow;
use yaml_groups::LogicalLine;
use yaml_lines::{Context, YamlFault, YamlRefusal, text_at};
use yaml_nodes::{Progress, Properties, block_scalar, line_end, starts, word};

/// Whether a flow collection begins here.
fn begins_flow(chars: &[char]) -> bool
    ensures { result ≡ begins_flow chars.now }
{
    starts(chars, '[') || starts(chars, '{')
}

/// Whether a block scalar begins here.
fn begins_block(chars: &[char]) -> bool
    ensures { result ≡ begins_block chars.now }
{
    starts(chars, '|') || starts(chars, '>')
}

/// Whether a plain scalar or one in quotes stands here.
fn is_scalar(chars: &[char]) -> bool
    ensures { result ≡ is_scalar chars.now }
{
    !(begins_flow(chars) || begins_block(chars) || starts(chars, '*'))
}

/// The flow collection, block scalar, scalar or alias that begins at a character of a line, and the place behind it.
/// The content of a block scalar is deeper than a column.
fn inline(
    alloc: Global,
    progress: &mut Progress,
    levels: u32,
    column: usize,
    found: Properties,
    line: &LogicalLine,
    at: usize,
) -> Result<(Tree, usize), YamlRefusal>
    ensures { Gives (result_beside result progress.new)
        (inline levels column found progress.old line.now at) }
{
    let chars = text_at(&line.row, at);
    if begins_flow(chars) {
        flow(alloc, progress, levels, found, &line.row, at)
    } else if begins_block(chars) {
        let content = line.content.as_slice();
        block_scalar(
            alloc, progress, levels, found, &line.row, at, column, content,
        )
    } else {
        word(
            alloc,
            progress,
            Context::Block,
            levels,
            found,
            &line.row,
            at,
        )
    }
}

/// Refuses lines behind a node on one line: one that would go on with a scalar (`Unsupported`), being of at least an
/// indentation, and every other (`BadIndent`).
pub(crate) fn alone(
    progress: &Progress,
    scalar: bool,
    indent: usize,
    lines: &[LogicalLine],
) -> Result<(), YamlRefusal>
    ensures { Gives (result_left result progress.now) (alone scalar indent progress.now lines.now) }
{
    match lines {
        [] => Ok(()),
        [line, ..] => {
            begun(progress, line)?;
            let which = if scalar && indent <= line.row.indent {
                YamlFault::Unsupported
            } else {
                YamlFault::BadIndent
            };
            Err(progress.bad(which, &line.row, line.row.indent))
        }
    }
}

/// The node that stands alone on the rest of a line: only a comment follows it there (`BadScalar`), and no line. A
/// line of at least an indentation would go on with a scalar. The content of a block scalar is deeper than the owner.
pub(crate) fn inline_alone(
    alloc: Global,
    progress: &mut Progress,
    levels: u32,
    owner: &Owner,
    found: Properties,
    indent: usize,
    line: &LogicalLine,
    at: usize,
    more: &[LogicalLine],
) -> Result<Tree, YamlRefusal>
    ensures { Gives (result_beside result progress.new)
        (inline_alone levels indent owner.now.column found progress.old line.now at more.now) }
{
    let (tree, end) = inline(alloc, progress, levels, owner.column, found, line, at)?;
    if let Err(refusal) = line_end(progress, &line.row, end) {
        drop(tree);
        return Err(refusal);
    }
    let scalar = is_scalar(text_at(&line.row, at));
    if let Err(refusal) = alone(progress, scalar, indent, more) {
        drop(tree);
        return Err(refusal);
    }
    Ok(tree)
}

/// The least indentation with which a line would go on with a scalar at a character of a line: that of the scalar's
/// own line, else deeper than the owner.
pub(crate) fn goes_on_at(owner: &Owner, line: &LogicalLine, at: usize) -> usize
    ensures { result ≡ goes_on_at owner.now line.now at }
{
    if at == line.row.indent {
        at
    } else {
        owner.column + 1
    }
}
