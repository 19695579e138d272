ghost use Rattle.std.specs.Prelude.{◌≡◌, IfOk, is_some};
ghost use Rattle.std.specs.Option.{option_copied};
ghost use Rattle.tree_base.specs.Entries.{value_at};
ghost use Rattle.tree_base.specs.declared.tree.Tree.{out-Tree};
ghost use Rattle.tree_base.specs.declared.tree.Tree.TheVariants as trees;
ghost use Rattle.yaml_lines.specs.Answers.{Gives};
ghost use Rattle.yaml_nodes.specs.Progress.{result_beside, result_left};
ghost use Rattle.yaml_nodes.specs.Mappings.{no_entries, is_there, key_size, new_key, pairs_of, all_pairs, added_maps, with_merge, with_pair, merged_with, merged};

use crate::added::{count, keys_from, put_added, trees_from};
use crate::key::Key;
use crate::progress::Progress;
use crate::spot::Spot;
use std::alloc::Global;
use tree_base::{List, Map, Memory, Shared, Text, Tree};
use yaml_lines::{Row, YamlFault, YamlRefusal};

/// How many keys are few.
const FEW: usize = 8;

/// A merge key with its value.
#[derive(Drop)]
pub struct Merge {
    /// The mappings that it adds, earlier ones first.
    pub maps: List<Shared<Map>>,
    /// Where the key stands.
    pub spot: Spot,
}

/// The entries of a mapping so far: its own, and its merge key.
#[derive(Drop)]
pub struct Entries {
    pub own: Map,
    pub merge: Option<Merge>,
}

/// No entry.
pub fn no_entries(alloc: Global) -> Entries
    ensures { result ≡ no_entries }
{
    Entries {
        own: Map::new(alloc),
        merge: None,
    }
}

/// Counts the text of a key that isn't there yet. Refuses one that is (`RepeatedKey`), and a text past the limit, both
/// at the key.
pub fn new_key(
    progress: &mut Progress,
    entries: &Entries,
    row: &Row,
    at: usize,
    key: &Key,
) -> Result<(), YamlRefusal>
    ensures { Gives (result_left result progress.new)
        (new_key entries.now progress.old row.now at key.now) }
{
    if is_there(entries, key) {
        return Err(progress.bad(YamlFault::RepeatedKey, row, at));
    }
    progress.more_text(row, Spot::Here(at), key_size(key))
}

/// How many bytes a key counts; a merge key, which the tree doesn't have, counts none.
fn key_size(key: &Key) -> u64
    ensures { result ≡ key_size key.now }
{
    if key.is_merge {
        0
    } else {
        key.text.len() as u64
    }
}

/// Whether a key is there already.
fn is_there(entries: &Entries, key: &Key) -> bool
    ensures { result ≡ is_there entries.now key.now }
{
    if key.is_merge {
        entries.merge.is_some()
    } else {
        has_key(&entries.own, &key.text)
    }
}

/// Whether a mapping has a key. Few keys are gone through one by one, which is faster than to look one up.
fn has_key(map: &Map, key: &Text) -> bool
    ensures { result ≡ is_some (value_at map.now key.now) }
{
    if map.len() <= FEW {
        map.find(key.as_str()).is_some()
    } else {
        map.get(key).is_some()
    }
}

/// Puts the value of a key that stands at a spot. Refuses a merge key whose value is no mapping and no sequence of
/// mappings (`BadMerge`), at the key.
pub fn with_pair(
    alloc: Global,
    progress: &Progress,
    entries: &mut Entries,
    row: &Row,
    spot: Spot,
    key: Key,
    tree: Tree,
) -> Result<(), YamlRefusal>
    ensures { Gives (result_left result entries.new)
        (with_pair entries.old progress.now row.now spot key tree) }
{
    if key.is_merge {
        put_merge(alloc, progress, entries, row, spot, &tree)
    } else {
        drop(entries.own.put(key.text, tree)?);
        Ok(())
    }
}

/// Puts a merge key that stands at a spot, by its value.
fn put_merge(
    alloc: Global,
    progress: &Progress,
    entries: &mut Entries,
    row: &Row,
    spot: Spot,
    tree: &Tree,
) -> Result<(), YamlRefusal>
    ensures { Gives (result_left result entries.new)
        (with_merge entries.old progress.now row.now spot (added_maps (out-Tree tree.now))) }
{
    let Some(maps) = added_maps(alloc, tree)? else {
        return Err(YamlRefusal::Bad {
            which: YamlFault::BadMerge,
            place: progress.place_of(row, spot),
        });
    };
    entries.merge = Some(Merge { maps, spot });
    Ok(())
}

/// The mappings that the value of a merge key adds: it is one, or a sequence of some; else None.
fn added_maps(alloc: Global, tree: &Tree) -> Result<Option<List<Shared<Map>>>, Memory>
    ensures { IfOk result (λ maps. maps ≡ added_maps (out-Tree tree.now)) }
{
    match tree {
        Tree::Map(map) => {
            let mut maps = List::new(alloc);
            maps.push(map.share()?)?;
            Ok(Some(maps))
        }
        Tree::Seq(trees) => all_maps(alloc, trees.as_slice()),
        _ => Ok(None),
    }
}

/// The mappings among which nothing else is; None where something is.
fn all_maps(alloc: Global, trees: &[Tree]) -> Result<Option<List<Shared<Map>>>, Memory>
    ensures { IfOk result (λ maps. maps ≡ all_pairs trees.now) }
{
    let mut maps = List::new(alloc);
    for tree in trees {
        match map_of(tree) {
            None => return Ok(None),
            Some(map) => maps.push(map.share()?)?,
        }
    }
    Ok(Some(maps))
}

/// The mapping that a tree is; None where it is none.
fn map_of(tree: &Tree) -> Option<&Shared<Map>>
    ensures { option_copied result ≡ pairs_of (out-Tree tree.now) }
{
    match tree {
        Tree::Map(map) => Some(map),
        _ => None,
    }
}

/// The mapping of entries: its own, then those of its merge key that aren't there yet, which count once more.
/// Refuses a limit that they pass, at the merge key.
pub fn merged(
    alloc: Global,
    progress: &mut Progress,
    row: &Row,
    entries: Entries,
) -> Result<Tree, YamlRefusal>
    ensures { Gives (result_beside result progress.new) (merged progress.old row.now entries) }
{
    let Entries { own, merge } = entries;
    let mut own = own;
    add_merged(alloc, progress, row, &mut own, &merge)?;
    Ok(Tree::mapping(alloc, own)?)
}

/// Puts the entries that a merge key adds, if there is one, behind a mapping's own.
fn add_merged(
    alloc: Global,
    progress: &mut Progress,
    row: &Row,
    own: &mut Map,
    merge: &Option<Merge>,
) -> Result<(), YamlRefusal>
    ensures { Gives (result_left result (trees.Map own.new, progress.new))
        (merged_with progress.old row.now own.old merge.now) }
{
    let Some(merge) = merge else {
        return Ok(());
    };
    let first = own.len();
    put_added(alloc, own, merge.maps.as_slice())?;
    count(
        progress,
        row,
        merge.spot,
        keys_from(own, first),
        trees_from(own, first),
    )
}
