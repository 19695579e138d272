ghost use Rattle.std.specs.Prelude.{◌≡◌, [], ◌∷◌, ◌<◌, ◌≤◌, ◌-◌, length};
ghost use Rattle.yaml_lines.specs.Answers.{Gives};
ghost use Rattle.yaml_nodes.specs.Mappings.{no_entries};
ghost use Rattle.yaml_nodes.specs.Progress.{result_beside, result_left};
ghost use Rattle.yaml_tree.specs.Blocks.{below, item_node, block_item, block_sequence, block_value, block_entry, block_mapping, has_own_properties, block_or_inline, node};
ghost use Rattle.yaml_tree.specs.Parts.{begins_item, begins_entry, is_item_at, is_entry_at, block};
ghost use Rattle.yaml_tree.specs.Steps.{behind_properties, inner};

use crate::inline::{alone, goes_on_at, inline_alone};
use crate::owner::Owner;
use crate::parts::{
    begun, behind_dash, colon_behind, entry_len, is_item_at, item_len, later_begun, stands_behind,
    value_len,
};
use std::alloc::Global;
use tree_base::{List, Tree};
use yaml_groups::LogicalLine;
use yaml_lines::{Context, YamlFault, YamlRefusal, blanks, is_rest_blank, place_in, text_at};
use yaml_nodes::{
    Entries, Progress, Properties, Spot, carried, finished, is_colon_of, is_item, is_key_behind,
    is_property, key_at, merged, new_key, no_entries, no_properties, nothing, properties_from,
    properties_len, unspelled, with_pair,
};

/// The node in the lines below its owner, which begins with their first character; null where there are none.
#[cycle(node)]
pub(crate) fn below(
    alloc: Global,
    progress: &mut Progress,
    levels: u32,
    owner: &Owner,
    found: Properties,
    lines: &[LogicalLine],
) -> Result<Tree, YamlRefusal>
    ensures { Gives (result_beside result progress.new)
        (below (node levels) owner.now found progress.old lines.now) }
{
    match lines {
        [] => nothing(alloc, progress, levels, found, owner.row, owner.column),
        [line, more @ ..] => {
            let at = line.row.indent;
            node(alloc, progress, levels, owner, found, at, line, more)
        }
    }
}

/// The node that begins at a character of a line and goes on in the lines behind it. Properties on the line belong to
/// what stands behind them on it, and if nothing does to the lines below.
#[cycle(node)]
fn node(
    alloc: Global,
    progress: &mut Progress,
    levels: u32,
    owner: &Owner,
    found: Properties,
    at: usize,
    line: &LogicalLine,
    more: &[LogicalLine],
) -> Result<Tree, YamlRefusal>
    ensures { Gives (result_beside result progress.new)
        (node levels owner.now found progress.old at (line.now ∷ more.now)) }
{
    begun(progress, line)?;
    let chars = text_at(&line.row, at);
    if !has_own_properties(chars) {
        return block_or_inline(alloc, progress, levels, owner, found, at, line, more);
    }
    let found = properties_from(alloc, progress, &line.row, at, found, owner.is_key)?;
    let indent = goes_on_at(owner, line, at);
    let behind = at + properties_len(chars);
    behind_properties(
        alloc, progress, levels, owner, found, indent, line, behind, more,
    )
}

/// The node whose properties end at a character of a line: behind them on it, or in the lines below.
#[cycle(node)]
fn behind_properties(
    alloc: Global,
    progress: &mut Progress,
    levels: u32,
    owner: &Owner,
    found: Properties,
    indent: usize,
    line: &LogicalLine,
    at: usize,
    more: &[LogicalLine],
) -> Result<Tree, YamlRefusal>
    ensures { Gives (result_beside result progress.new)
        (behind_properties levels
        (node levels) owner.now found progress.old indent line.now at more.now) }
{
    if is_rest_blank(text_at(&line.row, at), true) {
        let found = carried(progress, &line.row, found);
        below(alloc, progress, levels, owner, found, more)
    } else {
        inline_alone(
            alloc, progress, levels, owner, found, indent, line, at, more,
        )
    }
}

/// The node without properties of its own on its line: a block, if it begins one, else a node on one line. A mapping
/// begins with its first key, also with one that is refused when it is read.
#[cycle(node)]
fn block_or_inline(
    alloc: Global,
    progress: &mut Progress,
    levels: u32,
    owner: &Owner,
    found: Properties,
    at: usize,
    line: &LogicalLine,
    more: &[LogicalLine],
) -> Result<Tree, YamlRefusal>
    ensures { Gives (result_beside result progress.new)
        (block_or_inline levels (levels - 1)
        (inner levels) owner.now found progress.old at line.now more.now) }
{
    let chars = text_at(&line.row, at);
    if is_item(chars) {
        let found = unspelled(progress, &line.row, found)?;
        return block_sequence(alloc, progress, levels, found, at, line, more);
    }
    if is_key_behind(chars, Context::Block) {
        let found = unspelled(progress, &line.row, found)?;
        return block_mapping(alloc, progress, levels, found, at, line, more);
    }
    let indent = goes_on_at(owner, line, at);
    inline_alone(
        alloc, progress, levels, owner, found, indent, line, at, more,
    )
}

/// The sequence whose first item begins at a column of a line.
#[cycle(node)]
fn block_sequence(
    alloc: Global,
    progress: &mut Progress,
    levels: u32,
    found: Properties,
    column: usize,
    line: &LogicalLine,
    more: &[LogicalLine],
) -> Result<Tree, YamlRefusal>
    requires { column < length line.now.row.chars }
    ensures { Gives (result_beside result progress.new)
        (block_sequence levels (inner levels) found progress.old column line.now more.now) }
{
    progress.one_node(levels, &line.row, column, 0)?;
    let items = items(alloc, progress, levels - 1, column, line, more)?;
    finished(alloc, progress, found, Tree::sequence(alloc, items)?)
}

/// The items of a sequence at a column, of which the first begins with a line.
#[cycle(node)]
fn items(
    alloc: Global,
    progress: &mut Progress,
    levels: u32,
    column: usize,
    line: &LogicalLine,
    more: &[LogicalLine],
) -> Result<List<Tree>, YamlRefusal>
    requires { column < length line.now.row.chars }
    ensures { Gives (result_beside result progress.new)
        (block (begins_item column) (is_item_at column) (block_item column (node levels))
        ([], progress.old) line.now more.now) }
{
    let (own, mut rest) = more.split_at(item_len(more, column));
    let mut items = List::new(alloc);
    push_item(alloc, progress, levels, &mut items, column, line, own)?;
    while let Some((next, more)) = rest.split_first() {
        later_begun(progress, next, is_item_at(next, column))?;
        let (own, after) = more.split_at(item_len(more, column));
        push_item(alloc, progress, levels, &mut items, column, next, own)?;
        rest = after;
    }
    Ok(items)
}

/// Puts the item last whose dash stands at a column of a line.
#[cycle(node)]
fn push_item(
    alloc: Global,
    progress: &mut Progress,
    levels: u32,
    items: &mut List<Tree>,
    column: usize,
    line: &LogicalLine,
    more: &[LogicalLine],
) -> Result<(), YamlRefusal>
    requires { column < length line.now.row.chars }
    ensures { Gives (result_left result (items.new, progress.new))
        (block_item column (node levels) (items.old, progress.old) line.now more.now) }
{
    let item = item_node(alloc, progress, levels, column, line, more)?;
    items.push(item)?;
    Ok(())
}

/// The item whose dash stands at a column of a line: what stands behind it on the line, which begins a block of its
/// own there, or the deeper lines.
#[cycle(node)]
fn item_node(
    alloc: Global,
    progress: &mut Progress,
    levels: u32,
    column: usize,
    line: &LogicalLine,
    more: &[LogicalLine],
) -> Result<Tree, YamlRefusal>
    requires { column < length line.now.row.chars }
    ensures { Gives (result_beside result progress.new)
        (item_node column (node levels) progress.old line.now more.now) }
{
    let owner = Owner {
        row: &line.row,
        column,
        is_key: false,
    };
    let found = no_properties();
    let rest = behind_dash(&line.row, column);
    if is_rest_blank(rest, false) {
        below(alloc, progress, levels, &owner, found, more)
    } else {
        let at = column + 1 + blanks(rest);
        node(alloc, progress, levels, &owner, found, at, line, more)
    }
}

/// The mapping whose first entry begins at a column of a line.
#[cycle(node)]
fn block_mapping(
    alloc: Global,
    progress: &mut Progress,
    levels: u32,
    found: Properties,
    column: usize,
    line: &LogicalLine,
    more: &[LogicalLine],
) -> Result<Tree, YamlRefusal>
    ensures { Gives (result_beside result progress.new)
        (block_mapping levels (levels - 1)
        (inner levels) found progress.old column line.now more.now) }
{
    progress.one_node(levels, &line.row, column, 0)?;
    let entries = entries(alloc, progress, levels - 1, column, line, more)?;
    let map = merged(alloc, progress, &line.row, entries)?;
    finished(alloc, progress, found, map)
}

/// The entries of a mapping at a column, of which the first begins with a line.
#[cycle(node)]
fn entries(
    alloc: Global,
    progress: &mut Progress,
    levels: u32,
    column: usize,
    line: &LogicalLine,
    more: &[LogicalLine],
) -> Result<Entries, YamlRefusal>
    ensures { Gives (result_beside result progress.new)
        (block (begins_entry column) (is_entry_at column) (block_entry column levels (node levels))
        (no_entries, progress.old) line.now more.now) }
{
    let mut entries = no_entries(alloc);
    match put_entries(alloc, progress, levels, &mut entries, column, line, more) {
        Ok(()) => Ok(entries),
        Err(refusal) => {
            drop(entries);
            Err(refusal)
        }
    }
}

/// Puts the entries of a mapping at a column, of which the first begins with a line.
#[cycle(node)]
fn put_entries(
    alloc: Global,
    progress: &mut Progress,
    levels: u32,
    entries: &mut Entries,
    column: usize,
    line: &LogicalLine,
    more: &[LogicalLine],
) -> Result<(), YamlRefusal>
    ensures { Gives (result_left result (entries.new, progress.new))
        (block (begins_entry column) (is_entry_at column) (block_entry column levels (node levels))
        (entries.old, progress.old) line.now more.now) }
{
    let (own, mut rest) = more.split_at(entry_len(more, column));
    put_entry(alloc, progress, levels, entries, column, line, own)?;
    while let Some((next, more)) = rest.split_first() {
        later_begun(progress, next, next.row.indent == column)?;
        let (own, after) = more.split_at(entry_len(more, column));
        put_entry(alloc, progress, levels, entries, column, next, own)?;
        rest = after;
    }
    Ok(())
}

/// Puts the entry that begins at a column of a line: a key and its colon on the line, then its value. An item behind
/// that, at the column of the mapping, is refused last.
#[cycle(node)]
fn put_entry(
    alloc: Global,
    progress: &mut Progress,
    levels: u32,
    entries: &mut Entries,
    column: usize,
    line: &LogicalLine,
    more: &[LogicalLine],
) -> Result<(), YamlRefusal>
    ensures { Gives (result_left result (entries.new, progress.new))
        (block_entry column levels (node levels) (entries.old, progress.old) line.now more.now) }
{
    let row = &line.row;
    let chars = text_at(row, column);
    let key = key_at(alloc, progress, Context::Block, row, column)?;
    let colon = colon_behind(row, column, &key);
    if !is_colon_of(chars, text_at(row, colon), Context::Block) {
        return Err(progress.bad(YamlFault::BadScalar, row, column));
    }
    new_key(progress, entries, row, column, &key)?;
    let owner = Owner {
        row,
        column,
        is_key: true,
    };
    let len = value_len(more, column, stands_behind(row, colon + 1));
    let (own, late) = more.split_at(len);
    let value = block_value(alloc, progress, levels, &owner, line, colon + 1, own)?;
    let spot = Spot::Before(place_in(progress.file, row, column));
    with_pair(alloc, progress, entries, row, spot, key, value)?;
    alone(progress, false, 0, late)
}

/// The value of an entry, from behind its colon on: on the key's line, or in the lines below. Its properties stand on
/// the key's line.
#[cycle(node)]
fn block_value(
    alloc: Global,
    progress: &mut Progress,
    levels: u32,
    owner: &Owner,
    line: &LogicalLine,
    behind: usize,
    more: &[LogicalLine],
) -> Result<Tree, YamlRefusal>
    requires { behind ≤ length line.now.row.chars }
    ensures { Gives (result_beside result progress.new)
        (block_value levels (node levels) owner.now progress.old line.now behind more.now) }
{
    let start = behind + blanks(text_at(&line.row, behind));
    let found = properties_from(alloc, progress, &line.row, start, no_properties(), true)?;
    let at = start + properties_len(text_at(&line.row, start));
    let indent = owner.column + 1;
    behind_properties(
        alloc, progress, levels, owner, found, indent, line, at, more,
    )
}

/// Whether a node's own properties stand here: no key follows them on the line, whose they would be.
fn has_own_properties(chars: &[char]) -> bool
    ensures { result ≡ has_own_properties chars.now }
{
    is_property(chars) && !is_key_behind(chars, Context::Block)
}
