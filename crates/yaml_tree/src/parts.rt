ghost use Rattle.std.specs.Prelude.{◌≡◌, ◌≤◌, ◌<◌, ◌+◌, ◌^◌, length};
ghost use Rattle.std.specs.List.{position_or_len};
ghost use Rattle.yaml_lines.specs.Answers.{Gives};
ghost use Rattle.yaml_lines.specs.declared.plain.Context.TheVariants.{Block};
ghost use Rattle.yaml_lines.specs.Rows.{text_at};
ghost use Rattle.yaml_nodes.specs.Marks.{before_colon, key_len};
ghost use Rattle.yaml_nodes.specs.Progress.{result_left};
ghost use Rattle.yaml_tree.specs.Blocks.{stands_behind};
ghost use Rattle.yaml_tree.specs.Parts.{begun, is_item_at, begins_item, begins_entry, is_bare, value_len};
ghost use Rattle.yaml_tree.specs.Steps.{later_begun};

use yaml_groups::LogicalLine;
use yaml_lines::{Row, YamlFault, YamlRefusal, blanks, is_rest_blank, tab_indent, text_at};
use yaml_nodes::{Key, Progress, is_item, is_left_out, is_property, properties_len};

/// Refuses a line with a tab in its indentation (`TabIndent`), and one that is left out (`Unsupported`).
pub(crate) fn begun(progress: &Progress, line: &LogicalLine) -> Result<(), YamlRefusal>
    ensures { Gives (result_left result progress.now) (begun progress.now line.now) }
{
    let chars = line.row.chars.as_slice();
    match tab_indent(chars) {
        Some(tab) => Err(progress.bad(YamlFault::TabIndent, &line.row, tab)),
        None => {
            if is_left_out(chars) {
                Err(progress.bad(YamlFault::Unsupported, &line.row, line.row.indent))
            } else {
                Ok(())
            }
        }
    }
}

/// Refuses the line with which a later part of a block begins, where it doesn't belong to the block (`BadIndent`), or
/// is wrong by itself.
pub(crate) fn later_begun(
    progress: &Progress,
    line: &LogicalLine,
    belongs: bool,
) -> Result<(), YamlRefusal>
    ensures { Gives (result_left result progress.now) (later_begun belongs progress.now line.now) }
{
    begun(progress, line)?;
    if belongs {
        Ok(())
    } else {
        Err(progress.bad(YamlFault::BadIndent, &line.row, line.row.indent))
    }
}

/// Whether an item begins at the column at which the line begins.
pub(crate) fn is_item_at(line: &LogicalLine, column: usize) -> bool
    ensures { result ≡ is_item_at column line.now }
{
    line.row.indent == column && is_item(text_at(&line.row, column))
}

/// The characters behind the dash that stands at a column of a row.
pub(crate) fn behind_dash(row: &Row, column: usize) -> &[char]
    requires { column < length row.now.chars }
    ensures is { result.now ≡ text_at row.now (column + 1) }
    ensures small { length row.now.chars < 2 ^ 63 }
{
    &text_at(row, column)[1..]
}

/// The place behind a key that was read at a place of a row, and behind the white space that follows it.
pub(crate) fn colon_behind(row: &Row, at: usize, key: &Key) -> usize
    requires within { at + key.now.len ≤ length row.now.chars }
    requires small { length row.now.chars < 2 ^ 63 }
    requires read { key.now.len ≡ key_len Block (text_at row.now at) }
    ensures is { result ≡ at + before_colon Block (text_at row.now at) }
    ensures within { result ≤ length row.now.chars }
{
    let behind = at + key.len;
    behind + blanks(text_at(row, behind))
}

/// How many lines come before the next item of a sequence at a column.
pub(crate) fn item_len(lines: &[LogicalLine], column: usize) -> usize
    ensures is { result ≡ position_or_len (begins_item column) lines.now }
    ensures within { result ≤ length lines.now }
{
    for (at, line) in lines.iter().enumerate() {
        if line.row.indent <= column {
            return at;
        }
    }
    lines.len()
}

/// How many lines come before the next entry of a mapping at a column; an item at that column begins none.
pub(crate) fn entry_len(lines: &[LogicalLine], column: usize) -> usize
    ensures is { result ≡ position_or_len (begins_entry column) lines.now }
    ensures within { result ≤ length lines.now }
{
    for (at, line) in lines.iter().enumerate() {
        if line.row.indent <= column && !is_item_at(line, column) {
            return at;
        }
    }
    lines.len()
}

/// Whether more than properties stands behind a colon, from a character of its row on.
pub(crate) fn stands_behind(row: &Row, behind: usize) -> bool
    requires { behind ≤ length row.now.chars }
    ensures { result ≡ stands_behind row.now behind }
{
    let start = behind + blanks(text_at(row, behind));
    let at = start + properties_len(text_at(row, start));
    !is_rest_blank(text_at(row, at), true)
}

/// Whether a line holds properties alone.
fn is_bare(line: &LogicalLine) -> bool
    ensures { result ≡ is_bare line.now }
{
    let row = &line.row;
    let chars = text_at(row, row.indent);
    is_property(chars) && is_rest_blank(text_at(row, row.indent + properties_len(chars)), true)
}

/// How many lines of an entry come before an item at its column that comes too late, since a value stands already: on
/// the key's line, or in the lines before the item.
pub(crate) fn value_len(lines: &[LogicalLine], column: usize, on_key_line: bool) -> usize
    ensures is { result ≡ value_len column on_key_line lines.now }
    ensures within { result ≤ length lines.now }
{
    let mut stands = on_key_line;
    for (at, line) in lines.iter().enumerate() {
        if is_item_at(line, column) {
            return if stands { at } else { lines.len() };
        }
        stands = stands || !is_bare(line);
    }
    lines.len()
}
