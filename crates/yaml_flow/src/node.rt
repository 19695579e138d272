ghost use Rattle.std.specs.Prelude.{◌≡◌, ◌≤◌, ◌<◌, ◌-◌, ◌^◌, [], length, IfOk};
ghost use Rattle.yaml_flow.specs.Flow.{between, flow, flow_entry, flow_item, flow_mapping, flow_node, flow_sequence, flow_value, nothing_before, read_piece};
ghost use Rattle.yaml_flow.specs.Pieces.{is_last_of, piece_at, stop_from};
ghost use Rattle.yaml_lines.specs.Answers.{Gives};
ghost use Rattle.yaml_nodes.specs.Mappings.{no_entries};
ghost use Rattle.yaml_nodes.specs.Progress.{result_beside, result_left};

use crate::gap::next_place;
use crate::key::{behind_key, fault_of_pair};
use crate::piece::{Piece, behind_bracket, empty_stop, is_last, is_stop, next_stop};
use crate::properties::flow_properties;
use std::alloc::Global;
use tree_base::{List, Tree};
use yaml_lines::{Context, Row, YamlRefusal, text_at};
use yaml_nodes::{
    Entries, Progress, Properties, Spot, finished, is_key_behind, key_at, merged, new_key,
    no_entries, no_properties, nothing, starts, unspelled, with_pair, word,
};

/// In how many runs properties may stand: one more than a node can have.
const RUNS: u32 = 3;

/// The node that begins at a character of a row, in a flow collection or as one, and the place behind it. So many
/// levels are left for it. Refuses a collection that is wrong or isn't closed (`BadFlow`) at its opening bracket, a
/// pair in a sequence (`Unsupported`), `!!str` on a collection (`BadTag`), and what the crate `yaml_nodes` refuses of
/// keys, properties and scalars.
#[cycle(collection)]
pub fn flow(
    alloc: Global,
    progress: &mut Progress,
    levels: u32,
    found: Properties,
    row: &Row,
    at: usize,
) -> Result<(Tree, usize), YamlRefusal>
    ensures is { Gives (result_beside result progress.new)
        (flow levels found progress.old row.now at) }
    ensures within { IfOk result (λ got. got.1 ≤ length row.now.chars) }
{
    let chars = text_at(row, at);
    if starts(chars, '[') {
        let found = unspelled(progress, row, found)?;
        return sequence(alloc, progress, levels, found, row, at);
    }
    if starts(chars, '{') {
        let found = unspelled(progress, row, found)?;
        return mapping(alloc, progress, levels, found, row, at);
    }
    word(alloc, progress, Context::Flow, levels, found, row, at)
}

/// The sequence whose bracket opens at a place of a row, and the place behind it.
#[cycle(collection)]
fn sequence(
    alloc: Global,
    progress: &mut Progress,
    levels: u32,
    found: Properties,
    row: &Row,
    at: usize,
) -> Result<(Tree, usize), YamlRefusal>
    requires within { at < length row.now.chars }
    requires small { length row.now.chars < 2 ^ 63 }
    ensures is { Gives (result_beside result progress.new)
        (flow_sequence levels (levels - 1) (flow (levels - 1)) found progress.old row.now at) }
    ensures within { IfOk result (λ got. got.1 ≤ length row.now.chars) }
{
    progress.one_node(levels, row, at, 0)?;
    let (items, end) = items(alloc, progress, levels - 1, row, at)?;
    let tree = finished(alloc, progress, found, Tree::sequence(alloc, items)?)?;
    Ok((tree, end))
}

/// The mapping whose bracket opens at a place of a row, and the place behind it.
#[cycle(collection)]
fn mapping(
    alloc: Global,
    progress: &mut Progress,
    levels: u32,
    found: Properties,
    row: &Row,
    at: usize,
) -> Result<(Tree, usize), YamlRefusal>
    requires within { at < length row.now.chars }
    requires small { length row.now.chars < 2 ^ 63 }
    ensures is { Gives (result_beside result progress.new)
        (flow_mapping levels (levels - 1) (flow (levels - 1)) found progress.old row.now at) }
    ensures within { IfOk result (λ got. got.1 ≤ length row.now.chars) }
{
    progress.one_node(levels, row, at, 0)?;
    let (entries, end) = entries(alloc, progress, levels - 1, row, at)?;
    let map = merged(alloc, progress, row, entries)?;
    let tree = finished(alloc, progress, found, map)?;
    Ok((tree, end))
}

/// The items of the sequence whose bracket opens at a place of a row, and the place behind it.
#[cycle(collection)]
fn items(
    alloc: Global,
    progress: &mut Progress,
    levels: u32,
    row: &Row,
    bracket: usize,
) -> Result<(List<Tree>, usize), YamlRefusal>
    requires within { bracket < length row.now.chars }
    requires small { length row.now.chars < 2 ^ 63 }
    ensures is { Gives (result_beside result progress.new)
        (between (flow_item levels (flow levels) row.now) row.now bracket 93 [] progress.old) }
    ensures within { IfOk result (λ got. got.1 ≤ length row.now.chars) }
{
    let mut items = List::new(alloc);
    let mut start = bracket + 1;
    loop {
        let stop = item_piece(alloc, progress, &mut items, levels, row, bracket, start)?;
        let piece = Piece { bracket, stop };
        if is_last(row, piece) {
            let end = behind_bracket(progress, row, piece, ']')?;
            return Ok((items, end));
        }
        start = stop + 1;
    }
}

/// The entries of the mapping whose bracket opens at a place of a row, and the place behind it.
#[cycle(collection)]
fn entries(
    alloc: Global,
    progress: &mut Progress,
    levels: u32,
    row: &Row,
    bracket: usize,
) -> Result<(Entries, usize), YamlRefusal>
    requires within { bracket < length row.now.chars }
    requires small { length row.now.chars < 2 ^ 63 }
    ensures is { Gives (result_beside result progress.new)
        (between (flow_entry levels
        (flow levels) row.now) row.now bracket 125 no_entries progress.old) }
    ensures within { IfOk result (λ got. got.1 ≤ length row.now.chars) }
{
    let mut entries = no_entries(alloc);
    let mut start = bracket + 1;
    loop {
        let stop = entry_piece(alloc, progress, &mut entries, levels, row, bracket, start)?;
        let piece = Piece { bracket, stop };
        if is_last(row, piece) {
            let end = behind_bracket(progress, row, piece, '}')?;
            return Ok((entries, end));
        }
        start = stop + 1;
    }
}

/// Puts the item of a piece last, which begins at a place; only the last piece may be empty. Gives where the piece ends.
#[cycle(collection)]
fn item_piece(
    alloc: Global,
    progress: &mut Progress,
    items: &mut List<Tree>,
    levels: u32,
    row: &Row,
    bracket: usize,
    start: usize,
) -> Result<usize, YamlRefusal>
    requires { start ≤ length row.now.chars }
    ensures is { Gives (result_left result (items.new, progress.new))
        (read_piece (flow_item levels (flow levels) row.now) row.now
        (piece_at row.now bracket start) (is_last_of row.now (piece_at row.now bracket start))
        (items.old, progress.old) start) }
    ensures ends { IfOk result (λ stop. stop ≡ stop_from row.now start) }
    ensures within { IfOk result (λ stop. stop ≤ length row.now.chars) }
{
    let at = next_place(progress, row, start, false)?;
    if is_stop(row, at) {
        return empty_stop(progress, row, bracket, at);
    }
    item(alloc, progress, items, levels, row, bracket, at)
}

/// Puts the entry of a piece, which begins at a place; only the last piece may be empty. Gives where the piece ends.
#[cycle(collection)]
fn entry_piece(
    alloc: Global,
    progress: &mut Progress,
    entries: &mut Entries,
    levels: u32,
    row: &Row,
    bracket: usize,
    start: usize,
) -> Result<usize, YamlRefusal>
    requires { start ≤ length row.now.chars }
    ensures is { Gives (result_left result (entries.new, progress.new))
        (read_piece (flow_entry levels (flow levels) row.now) row.now
        (piece_at row.now bracket start) (is_last_of row.now (piece_at row.now bracket start))
        (entries.old, progress.old) start) }
    ensures ends { IfOk result (λ stop. stop ≡ stop_from row.now start) }
    ensures within { IfOk result (λ stop. stop ≤ length row.now.chars) }
{
    let at = next_place(progress, row, start, false)?;
    if is_stop(row, at) {
        return empty_stop(progress, row, bracket, at);
    }
    entry(alloc, progress, entries, levels, row, bracket, at)
}

/// Puts the item last that begins at a place, which is no pair: a pair is counted as a node, and refused at its key.
#[cycle(collection)]
fn item(
    alloc: Global,
    progress: &mut Progress,
    items: &mut List<Tree>,
    levels: u32,
    row: &Row,
    bracket: usize,
    at: usize,
) -> Result<usize, YamlRefusal>
    requires { at ≤ length row.now.chars }
    ensures is { Gives (result_left result (items.new, progress.new))
        (flow_item levels (flow levels) row.now (piece_at row.now bracket at)
        (items.old, progress.old) at) }
    ensures ends { IfOk result (λ stop. stop ≡ stop_from row.now at) }
    ensures within { IfOk result (λ stop. stop ≤ length row.now.chars) }
{
    let chars = text_at(row, at);
    if is_key_behind(chars, Context::Flow) {
        progress.one_node(levels, row, at, 0)?;
        return Err(progress.bad(fault_of_pair(chars), row, at));
    }
    let (tree, end) = flow_node(alloc, progress, levels, row, at, at, false)?;
    items.push(tree)?;
    next_stop(progress, row, bracket, end)
}

/// Puts the entry that begins at a place: a key, its value behind a colon on the key's line, and nothing behind that.
#[cycle(collection)]
fn entry(
    alloc: Global,
    progress: &mut Progress,
    entries: &mut Entries,
    levels: u32,
    row: &Row,
    bracket: usize,
    at: usize,
) -> Result<usize, YamlRefusal>
    requires { at ≤ length row.now.chars }
    ensures is { Gives (result_left result (entries.new, progress.new))
        (flow_entry levels (flow levels) row.now (piece_at row.now bracket at)
        (entries.old, progress.old) at) }
    ensures ends { IfOk result (λ stop. stop ≡ stop_from row.now at) }
    ensures within { IfOk result (λ stop. stop ≤ length row.now.chars) }
{
    let key = key_at(alloc, progress, Context::Flow, row, at)?;
    new_key(progress, entries, row, at, &key)?;
    let (behind, has_colon) = behind_key(row, at, &key);
    let (tree, end) = flow_value(alloc, progress, levels, row, at, behind, has_colon)?;
    with_pair(alloc, progress, entries, row, Spot::Here(at), key, tree)?;
    next_stop(progress, row, bracket, end)
}

/// The value of a key, from behind its colon or itself on, and the place behind it: null where no colon stands on the
/// key's line, or nothing between it and the end of the piece.
#[cycle(collection)]
fn flow_value(
    alloc: Global,
    progress: &mut Progress,
    levels: u32,
    row: &Row,
    key: usize,
    behind: usize,
    has_colon: bool,
) -> Result<(Tree, usize), YamlRefusal>
    requires { behind ≤ length row.now.chars }
    ensures is { Gives (result_beside result progress.new)
        (flow_value levels (flow levels) row.now
        (piece_at row.now key behind) key progress.old behind has_colon) }
    ensures within { IfOk result (λ got. got.1 ≤ length row.now.chars) }
{
    if !has_colon {
        return nothing_before(alloc, progress, levels, no_properties(), row, key, behind);
    }
    let at = next_place(progress, row, behind, false)?;
    if is_stop(row, at) {
        return nothing_before(alloc, progress, levels, no_properties(), row, key, at);
    }
    flow_node(alloc, progress, levels, row, key, at, true)
}

/// The node that begins at a place of a piece, which ends at the next cut from there on, and the place behind it; where
/// only properties stand, nothing, at the place of its key or of itself.
#[cycle(collection)]
fn flow_node(
    alloc: Global,
    progress: &mut Progress,
    levels: u32,
    row: &Row,
    owner: usize,
    at: usize,
    may_be_marked: bool,
) -> Result<(Tree, usize), YamlRefusal>
    requires { at ≤ length row.now.chars }
    ensures is { Gives (result_beside result progress.new)
        (flow_node levels (flow levels) may_be_marked row.now
        (piece_at row.now owner at) owner progress.old at) }
    ensures within { IfOk result (λ got. got.1 ≤ length row.now.chars) }
{
    let (found, at) = flow_properties(
        alloc,
        progress,
        row,
        at,
        no_properties(),
        may_be_marked,
        RUNS,
    )?;
    if is_stop(row, at) {
        return nothing_before(alloc, progress, levels, found, row, owner, at);
    }
    flow(alloc, progress, levels, found, row, at)
}

/// Nothing before a place, at the place of its owner, and the place itself.
fn nothing_before(
    alloc: Global,
    progress: &mut Progress,
    levels: u32,
    found: Properties,
    row: &Row,
    owner: usize,
    end: usize,
) -> Result<(Tree, usize), YamlRefusal>
    requires { end ≤ length row.now.chars }
    ensures is { Gives (result_beside result progress.new)
        (nothing_before levels found progress.old row.now owner end) }
    ensures within { IfOk result (λ got. got.1 ≤ length row.now.chars) }
{
    let null = nothing(alloc, progress, levels, found, row, owner)?;
    Ok((null, end))
}
