ghost use Rattle.std.specs.Prelude.{◌≡◌, ◌≤◌, ◌<◌, ◌^◌, length, IfOk};
ghost use Rattle.yaml_lines.specs.Answers.{Gives};
ghost use Rattle.yaml_nodes.specs.Progress.{result_beside};
ghost use Rattle.yaml_nodes.specs.Scalars.{line_end, chomp_of, is_digit, header, block_scalar};
ghost use Rattle.yaml_nodes.specs.Unfinished.{ended};
ghost use Rattle.yaml_nodes.specs.declared.properties.Properties.{Properties};

use crate::marks::starts;
use crate::progress::Progress;
use crate::properties::{Properties, finish};
use crate::spot::Spot;
use std::alloc::Global;
use tree_base::Tree;
use yaml_lines::{
    Chomp, Row, YamlFault, YamlRefusal, blanks, block_of_rows, is_rest_blank, text_at,
};

/// The place itself, where only white space and a comment stand from it to the line's end; else `BadScalar` at what
/// stands there.
pub fn line_end(progress: &Progress, row: &Row, at: usize) -> Result<usize, YamlRefusal>
    ensures { Gives result (line_end progress.now row.now at) }
{
    let rest = text_at(row, at);
    if is_rest_blank(rest, false) {
        Ok(at)
    } else {
        Err(progress.bad(YamlFault::BadScalar, row, at + blanks(rest)))
    }
}

/// What is kept of the line ends behind the content, by the header's character behind its `|` or `>`, and how many
/// characters say it.
fn chomp_of(chars: &[char]) -> (Chomp, usize)
    ensures is { result ≡ chomp_of chars.now }
    ensures within { result.1 ≤ length chars.now }
{
    match chars {
        ['-', ..] => (Chomp::Strip, 1),
        ['+', ..] => (Chomp::Keep, 1),
        _ => (Chomp::Clip, 0),
    }
}

/// Whether a decimal digit stands here.
fn is_digit(chars: &[char]) -> bool
    ensures { result ≡ is_digit chars.now }
{
    match chars {
        [] => false,
        [c, ..] => c.is_ascii_digit(),
    }
}

/// The header of a block scalar whose `|` or `>` stands at a character of a row, and the place behind it.
fn header(progress: &Progress, row: &Row, at: usize) -> Result<(Chomp, usize), YamlRefusal>
    requires begun { at < length row.now.chars }
    requires small { length row.now.chars < 2 ^ 63 }
    ensures is { Gives result (header progress.now row.now at) }
    ensures within { IfOk result (λ read. read.1 ≤ length row.now.chars) }
{
    let (chomp, len) = chomp_of(text_at(row, at + 1));
    let behind = at + 1 + len;
    if is_digit(text_at(row, behind)) {
        return Err(progress.bad(YamlFault::Unsupported, row, behind));
    }
    let behind = line_end(progress, row, behind)?;
    Ok((chomp, behind))
}

/// The block scalar whose `|` or `>` stands at a character of a row, before its properties finish it.
fn unfinished(
    alloc: Global,
    progress: &mut Progress,
    levels: u32,
    row: &Row,
    at: usize,
    column: usize,
    content: &[Row],
) -> Result<(Tree, usize), YamlRefusal>
    requires { at < length row.now.chars }
    ensures is { (found : Properties) →
        Gives (ended found (result_beside result progress.new))
        (block_scalar levels found progress.old row.now at column content.now) }
    ensures within { IfOk result (λ got. got.1 ≤ length row.now.chars) }
{
    progress.one_node(levels, row, at, 0)?;
    let folded = starts(text_at(row, at), '>');
    let (chomp, behind) = header(progress, row, at)?;
    let (text, _) = block_of_rows(alloc, content, column, folded, chomp)?;
    progress.more_text(row, Spot::Here(at), text.len() as u64)?;
    Ok((Tree::Scalar(text), behind))
}

/// The block scalar whose `|` or `>` stands at a character of a row, by its content's lines, and the place behind its
/// header. The content is deeper than a column. Refuses the levels or nodes that this node passes, then a digit in the
/// header (`Unsupported`) or something else behind it (`BadScalar`), then the bytes that its text passes.
pub fn block_scalar(
    alloc: Global,
    progress: &mut Progress,
    levels: u32,
    found: Properties,
    row: &Row,
    at: usize,
    column: usize,
    content: &[Row],
) -> Result<(Tree, usize), YamlRefusal>
    requires { at < length row.now.chars }
    ensures is { Gives (result_beside result progress.new)
        (block_scalar levels found progress.old row.now at column content.now) }
    ensures within { IfOk result (λ got. got.1 ≤ length row.now.chars) }
{
    let (tree, behind) = unfinished(alloc, progress, levels, row, at, column, content)?;
    let tree = finish(alloc, progress, found, tree)?;
    Ok((tree, behind))
}
