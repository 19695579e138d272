ghost use Rattle.std.specs.Prelude.{◌≡◌, ◌≤◌, ◌+◌, ◌-◌, ◌++◌, drop, is_none, length, sum_by, OnOk, SomeIff};
ghost use Rattle.std.specs.Map.{keys_of, values_of};
ghost use Rattle.tree_base.specs.Limits.{most_nodes, most_text};
ghost use Rattle.tree_base.specs.Entries.{value_at};
ghost use Rattle.tree_base.specs.Trees.{node_count, text_size};
ghost use Rattle.yaml_lines.specs.Answers.{Gives};
ghost use Rattle.yaml_nodes.specs.Progress.{result_left, more_nodes};
ghost use Rattle.yaml_nodes.specs.Mappings.{new_pairs, with_new, added};

use crate::progress::Progress;
use crate::spot::Spot;
use std::alloc::Global;
use tree_base::{Map, Memory, Shared, Text, Tree, keys_left};
use yaml_lines::{Row, YamlRefusal};

/// Puts the pairs of mappings behind one, each key that isn't there yet, earlier mappings first: copies of their keys,
/// and their trees with one more owner.
pub fn put_added(alloc: Global, own: &mut Map, maps: &[Shared<Map>]) -> Result<(), Memory>
    ensures { OnOk result (own.new ≡ own.old ++ added own.old maps.now) }
{
    for map in maps {
        put_new(alloc, own, map.get())?;
    }
    Ok(())
}

/// Puts the pairs of one more mapping whose keys aren't there yet.
fn put_new(alloc: Global, own: &mut Map, more: &Map) -> Result<(), Memory>
    ensures { OnOk result (own.new ≡ own.old ++ new_pairs own.old more.now) }
{
    for at in 0..more.len() {
        if let Some((key, tree)) = more.pair(at) {
            put_pair(alloc, own, key, tree)?;
        }
    }
    Ok(())
}

/// Puts a pair whose key isn't there yet.
fn put_pair(alloc: Global, own: &mut Map, key: &Text, tree: &Tree) -> Result<(), Memory>
    ensures { OnOk result (own.new ≡ with_new own.old key.now tree.now) }
{
    if is_new(own, key) {
        drop(own.put(key.copy(alloc)?, tree.copy(alloc)?)?);
    }
    Ok(())
}

/// Whether a mapping doesn't have a key.
fn is_new(own: &Map, key: &Text) -> bool
    ensures { result ≡ is_none (value_at own.now key.now) }
{
    own.get(key).is_none()
}

/// What is left of a budget after one for each node of trees; None where they have more, which comes at the first node
/// past it.
fn nodes_left(trees: &[Tree], budget: u64) -> Option<u64>
    ensures { SomeIff result (sum_by node_count trees.now ≤ budget)
        (budget - sum_by node_count trees.now) }
{
    let mut left = budget;
    for tree in trees {
        left -= tree.nodes_within(left)?;
    }
    Some(left)
}

/// What is left of a budget after the bytes of the keys and the scalars of trees; None where they have more, which
/// comes at the first past it.
fn text_left(trees: &[Tree], budget: u64) -> Option<u64>
    ensures { SomeIff result (sum_by text_size trees.now ≤ budget)
        (budget - sum_by text_size trees.now) }
{
    let mut left = budget;
    for tree in trees {
        left -= tree.text_within(left)?;
    }
    Some(left)
}

/// How many nodes there are with those of trees; None past the limit, which the walk doesn't pass.
fn nodes_with(progress: &Progress, trees: &[Tree]) -> Option<u64>
    ensures { SomeIff result (progress.now.nodes + sum_by node_count trees.now ≤ most_nodes)
        (progress.now.nodes + sum_by node_count trees.now) }
{
    let budget = progress.nodes_left()?;
    let left = nodes_left(trees, budget)?;
    Some(progress.nodes + (budget - left))
}

/// How many bytes of keys and scalars there are with those of pairs; None past the limit, which the walk doesn't pass.
fn text_with(progress: &Progress, keys: &[Text], trees: &[Tree]) -> Option<u64>
    ensures { SomeIff result
        (progress.now.text + (sum_by length keys.now + sum_by text_size trees.now) ≤ most_text)
        (progress.now.text + (sum_by length keys.now + sum_by text_size trees.now)) }
{
    let budget = progress.text_left()?;
    let left = text_left(trees, keys_left(keys, budget)?)?;
    Some(progress.text + (budget - left))
}

/// Counts pairs once more: `TooManyNodes` past 200,000 nodes, and `TooMuchText`, each at a spot.
pub fn count(
    progress: &mut Progress,
    row: &Row,
    spot: Spot,
    keys: &[Text],
    trees: &[Tree],
) -> Result<(), YamlRefusal>
    ensures { Gives (result_left result progress.new) (more_nodes progress.old row.now spot
        (sum_by node_count trees.now) (sum_by length keys.now + sum_by text_size trees.now)) }
{
    let Some(nodes) = nodes_with(progress, trees) else {
        return Err(YamlRefusal::TooManyNodes {
            place: progress.place_of(row, spot),
        });
    };
    let Some(text) = text_with(progress, keys, trees) else {
        return Err(YamlRefusal::TooMuchText {
            place: progress.place_of(row, spot),
        });
    };
    progress.nodes = nodes;
    progress.text = text;
    Ok(())
}

/// The keys of a mapping from a place on.
pub fn keys_from(map: &Map, first: usize) -> &[Text]
    ensures { result.now ≡ drop first (keys_of map.now) }
{
    let keys = map.keys();
    if first <= keys.len() {
        &keys[first..]
    } else {
        &[]
    }
}

/// The trees of a mapping from a place on.
pub fn trees_from(map: &Map, first: usize) -> &[Tree]
    ensures { result.now ≡ drop first (values_of map.now) }
{
    let trees = map.values();
    if first <= trees.len() {
        &trees[first..]
    } else {
        &[]
    }
}
