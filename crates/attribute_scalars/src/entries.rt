ghost use Rattle.std.specs.Prelude.{◌≡◌, IfOk, map};
ghost use Rattle.std.specs.Option.{option_copied};
ghost use Rattle.tree_base.specs.Entries.{HasDistinctKeys, value_at};
ghost use Rattle.attribute_scalars.specs.Views.{seen_entry};
ghost use Rattle.attribute_scalars.specs.Walks.{in_byte_order, is_extension, own_entries};

use std::alloc::Global;
use tree_base::{Map, Memory, Tree};

/// An entry of a mapping.
#[derive(Clone, Copy)]
pub struct Entry<'a> {
    pub key: &'a str,
    pub value: &'a Tree,
}

/// The entries of a mapping, in the mapping's order; their keys differ.
pub fn entries_of<'a>(alloc: Global, entries: &'a Map) -> Result<Vec<Entry<'a>>, Memory>
    ensures value { IfOk result (λ list. map seen_entry list.items ≡ entries.now) }
    ensures distinct { HasDistinctKeys entries.now }
{
    let keys = entries.keys();
    let values = entries.values();
    let mut list = Vec::with_capacity(alloc, entries.len())?;
    for (at, value) in values.iter().enumerate() {
        let key = keys[at].as_str();
        list.push(Entry { key, value })?;
    }
    Ok(list)
}

/// The entries of a mapping whose keys extend nothing, in the mapping's order; their keys differ.
pub fn own_entries_of<'a>(alloc: Global, entries: &'a Map) -> Result<Vec<Entry<'a>>, Memory>
    ensures value { IfOk result (λ list. map seen_entry list.items ≡ own_entries entries.now) }
    ensures distinct { HasDistinctKeys (own_entries entries.now) }
{
    let mut list = entries_of(alloc, entries)?;
    list.retain(|entry| !is_extension(entry.key));
    Ok(list)
}

/// Whether a key extends a file, and is passed over (the Compose Specification, extensions).
fn is_extension(key: &str) -> bool
    ensures { result ≡ is_extension key.now }
{
    matches!(key.as_bytes(), [b'x', b'-', ..])
}

/// Entries whose keys differ, in byte order of these.
pub fn in_byte_order<'a>(entries: Vec<Entry<'a>>) -> Result<Vec<Entry<'a>>, Memory>
    requires { HasDistinctKeys (map seen_entry entries.items) }
    ensures value { IfOk result (λ sorted.
        map seen_entry sorted.items ≡ in_byte_order (map seen_entry entries.entry.items)) }
    ensures distinct { IfOk result (λ sorted. HasDistinctKeys (map seen_entry sorted.items)) }
{
    let mut sorted = entries;
    sorted.sort_by(|one, other| one.key.cmp(other.key))?;
    Ok(sorted)
}

/// The value under a key of entries; None exactly where the key isn't there. No memory.
pub fn value_among<'a>(entries: &[Entry<'a>], key: &str) -> Option<&'a Tree>
    ensures { option_copied result ≡ value_at (map seen_entry entries.now) key.now }
{
    for entry in entries {
        if key == entry.key {
            return Some(entry.value);
        }
    }
    None
}
