ghost use Rattle.std.specs.Prelude.{◌≡◌, [], IfOk, OnOk, map, unwrap_or};
ghost use Rattle.std.specs.List.{IsDistinct};
ghost use Rattle.std.specs.Str.{bytes_eq};
ghost use Rattle.std.specs.Option.{option_copied};
ghost use Rattle.tree_base.specs.Entries.{with_entry};
ghost use Rattle.project_print.specs.Json.{json_of};
ghost use Rattle.service_hashes.specs.Hashes.{used_entries, used_entry, used_node};

use crate::digest::{FileDigest, digest_at};
use attribute_types::FileUse;
use engine_types::Kind;
use named_items::by_name;
use project_print::{Dollars, Node, json_text};
use std::alloc::Global;
use tree_base::{List, Memory, Text, TextMap};

/// The digests of the secrets or configs that are used, under their keys, as JSON.
pub(crate) fn used_text(
    alloc: Global,
    digests: &[FileDigest],
    kind: Kind,
    uses: Option<&List<FileUse>>,
) -> Result<Text, Memory>
    ensures { IfOk result (λ text. text
        ≡ json_of Dollars.Once (used_node digests.now kind (option_copied uses.entry))) }
{
    let entries = used_entries(alloc, digests, kind, uses)?;
    let node = Node::Map(entries);
    json_text(alloc, &node, Dollars::Once)
}

/// The digests under their keys.
fn used_entries(
    alloc: Global,
    digests: &[FileDigest],
    kind: Kind,
    uses: Option<&List<FileUse>>,
) -> Result<TextMap<Node>, Memory>
    ensures { IfOk result (λ entries. entries
        ≡ used_entries digests.now kind (unwrap_or (option_copied uses.entry) [])) }
{
    match uses {
        Some(uses) => distinct_entries(alloc, digests, kind, uses.as_slice()),
        None => Ok(TextMap::new(alloc)),
    }
}

fn distinct_entries(
    alloc: Global,
    digests: &[FileDigest],
    kind: Kind,
    uses: &[FileUse],
) -> Result<TextMap<Node>, Memory>
    ensures { IfOk result (λ entries. entries ≡ used_entries digests.now kind uses.now) }
{
    let rows = by_name(alloc, uses)?;
    row_entries(alloc, digests, kind, rows.as_slice())
}

/// The digests of rows whose keys differ.
fn row_entries(
    alloc: Global,
    digests: &[FileDigest],
    kind: Kind,
    rows: &[&FileUse],
) -> Result<TextMap<Node>, Memory>
    requires { IsDistinct bytes_eq (map (λ used. used.source) (map (λ row. row.now) rows.now)) }
    ensures { IfOk result (λ entries.
        entries ≡ map (used_entry digests.now kind) (map (λ row. row.now) rows.now)) }
{
    let mut entries = TextMap::new(alloc);
    for row in rows {
        let digest = digest_at(digests, kind, row.source.as_str());
        put_digest(alloc, &mut entries, &row.source, digest)?;
    }
    Ok(entries)
}

fn put_digest(
    alloc: Global,
    entries: &mut TextMap<Node>,
    key: &Text,
    digest: &str,
) -> Result<(), Memory>
    ensures { OnOk result (entries.new ≡ with_entry entries.old key.now (Node.Text digest.now)) }
{
    let digest = Text::from_str(alloc, digest)?;
    let key = key.copy(alloc)?;
    entries.put(key, Node::Text(digest))?;
    Ok(())
}
