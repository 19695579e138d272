ghost use Rattle.std.specs.Prelude.{◌≡◌, IfOk, map};
ghost use Rattle.std.specs.List.{list_all};
ghost use Rattle.short_forms.specs.Mounts.{is_name_byte};
ghost use Rattle.tree_base.specs.ByteOrder.{IsAscending, is_before};
ghost use Rattle.attribute_scalars.specs.Views.{seen_entry};
ghost use Rattle.attribute_scalars.specs.Walks.{in_byte_order};
ghost use Rattle.project_meaning.specs.Meaning.{is_key, section};

use attribute_scalars::{Entry, entries_of, in_byte_order, value_among};
use std::alloc::Global;
use tree_base::{Map, Memory, Tree};

/// What an element declares, in byte order of the keys; nothing where no mapping stands there.
pub(crate) fn section<'a>(
    alloc: Global,
    elements: &[Entry<'a>],
    name: &str,
) -> Result<Vec<Entry<'a>>, Memory>
    ensures value { IfOk result (λ list. map seen_entry list.items
        ≡ in_byte_order (section (map seen_entry elements.now) name.now)) }
    ensures order { IfOk result (λ list.
        IsAscending (λ one other. is_before one.0 other.0) (map seen_entry list.items)) }
{
    match value_among(elements, name) {
        Some(Tree::Map(entries)) => sorted_entries(alloc, entries.get()),
        _ => Ok(Vec::new(alloc)),
    }
}

fn sorted_entries(alloc: Global, entries: &Map) -> Result<Vec<Entry>, Memory>
    ensures value { IfOk result (λ list. map seen_entry list.items ≡ in_byte_order entries.now) }
    ensures order { IfOk result (λ list.
        IsAscending (λ one other. is_before one.0 other.0) (map seen_entry list.items)) }
{
    let sorted = in_byte_order(entries_of(alloc, entries)?)?;
    Ok(sorted)
}

/// Whether a key may be that of what is declared: letters, digits, `.`, `_` and `-`.
pub(crate) fn is_key(key: &str) -> bool
    ensures { result ≡ is_key key.now }
{
    !key.is_empty() && are_name_bytes(key.as_bytes())
}

fn are_name_bytes(bytes: &[u8]) -> bool
    ensures { result ≡ list_all is_name_byte bytes.now }
{
    bytes.iter().all(|byte| is_name_byte(*byte))
}

fn is_name_byte(byte: u8) -> bool
    ensures { result ≡ is_name_byte byte }
{
    byte.is_ascii_alphanumeric() || byte == b'_' || byte == b'.' || byte == b'-'
}
