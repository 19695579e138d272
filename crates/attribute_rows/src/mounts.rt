ghost use Rattle.std.specs.Prelude.{◌≡◌, [], IfOk, codes, map, unwrap_or, ◌++◌, ◌∷◌, Ok};
ghost use Rattle.tree_base.specs.declared.Step.TheVariants.{Index};
ghost use Rattle.tree_base.specs.declared.Tree.{out-Tree};
ghost use Rattle.attribute_types.specs.Answers.{Gives, under};
ghost use Rattle.attribute_types.specs.Lookups.{text_at};
ghost use Rattle.attribute_scalars.specs.Views.{one_behind, onto, seen_entry};
ghost use Rattle.attribute_scalars.specs.Walks.{each_item, place};
ghost use Rattle.attribute_rows.specs.Rows.{in_mapping, listed, mount_from, mount_kind, mount_of, wanted_of_mount};

use crate::entries::map_of;
use crate::texts::{text_in, text_or};
use attribute_scalars::{Entry, entries_of, refused, under_place};
use attribute_types::{Attribute, AttributeRefusal, Fault, bool_named, mount_lines, text_named};
use attribute_values::{fields_of, is_bind};
use short_forms::{Mount, MountKind};
use std::alloc::Global;
use tree_base::{List, Memory, Tree};

/// What a mount has to have, and what a bind.
const OF_MOUNT: [&str; 2] = ["target", "type"];

const OF_BIND: [&str; 3] = ["source", "target", "type"];

/// The mounts of a sequence, in its order.
pub(crate) fn mounts_of(alloc: Global, tree: &Tree) -> Result<List<Mount>, AttributeRefusal>
    ensures { Gives result (listed mount_of (out-Tree tree.now)) }
{
    match tree {
        Tree::Seq(items) => mounts_in(alloc, items.as_slice()),
        _ => Err(refused(alloc, Fault::WrongKind)),
    }
}

/// The mounts of items, in their order.
fn mounts_in(alloc: Global, items: &[Tree]) -> Result<List<Mount>, AttributeRefusal>
    ensures { Gives result
        (each_item (λ item. in_mapping mount_of (out-Tree item)) 0 items.now) }
{
    let mut list = List::new(alloc);
    for (at, item) in items.iter().enumerate() {
        put_mount(alloc, at, item, &mut list)?;
    }
    Ok(list)
}

/// Puts what an item gives last, or refuses it at its place.
fn put_mount(
    alloc: Global,
    at: usize,
    item: &Tree,
    list: &mut List<Mount>,
) -> Result<(), AttributeRefusal>
    ensures { Gives (onto list.new result)
        (one_behind list.old (under (Index (place at)) (in_mapping mount_of (out-Tree item.now)))) }
{
    match mount_of(alloc, item) {
        Ok(one) => Ok(list.push(one)?),
        Err(refusal) => Err(under_place(at, refusal)),
    }
}

fn mount_of(alloc: Global, tree: &Tree) -> Result<Mount, AttributeRefusal>
    ensures { Gives result (in_mapping mount_of (out-Tree tree.now)) }
{
    let entries = entries_of(alloc, map_of(alloc, tree)?)?;
    let wanted = wanted_of_mount(entries.as_slice());
    let attributes = fields_of(alloc, mount_lines(), wanted, entries.as_slice())?;
    Ok(mount_from(alloc, attributes.as_slice())?)
}

/// What a mount has to have: a bind its source too.
fn wanted_of_mount(entries: &[Entry]) -> &'static [&'static str]
    ensures { map (λ name. name.now) result.now ≡ wanted_of_mount (map seen_entry entries.now) }
{
    if is_bind(entries) {
        &OF_BIND
    } else {
        &OF_MOUNT
    }
}

/// A mount by its attributes.
fn mount_from(alloc: Global, attributes: &[Attribute]) -> Result<Mount, Memory>
    ensures { IfOk result (λ mount. mount ≡ mount_from attributes.now) }
{
    let read_only = bool_named(attributes, "read_only").is_some();
    let kind = kind_of(attributes);
    Ok(Mount {
        kind,
        target: text_or(alloc, attributes, "target", "")?,
        source: text_in(alloc, attributes, "source")?,
        selinux: text_in(alloc, attributes, "bind")?,
        read_only,
    })
}

fn kind_of(attributes: &[Attribute]) -> MountKind
    ensures { result ≡ mount_kind (unwrap_or (text_at attributes.now (codes "type")) []) }
{
    match text_named(attributes, "type") {
        Some(word) => mount_kind(word.as_str()),
        None => MountKind::Volume,
    }
}

/// What a mount takes by the word of its type.
fn mount_kind(word: &str) -> MountKind
    ensures { result ≡ mount_kind word.now }
{
    match word {
        "bind" => MountKind::Bind,
        "tmpfs" => MountKind::Tmpfs,
        _ => MountKind::Volume,
    }
}
