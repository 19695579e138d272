ghost use Rattle.std.specs.Prelude.{◌≡◌, [], ◌∷◌, ◌++◌, IfOk, OnOk, codes};
ghost use Rattle.std.specs.Option.{option_map};
ghost use Rattle.tree_base.specs.declared.Tree.{Tree};
ghost use Rattle.merge_rules.specs.Marks.{counted, mark_of, mark_text, written};
ghost use Rattle.merge_rules.specs.Uniqueness.{alone, binding, key_by, placed, port_key, protocol_of, seen, text_at};
ghost use Rattle.merge_tables.specs.Parts.{field};

use crate::keys::{protocol_at, seen_at, text_at};
use crate::written::{counted, put_text, put_tree};
use merge_tables::EntryKind;
use std::alloc::Global;
use tree_base::{Map, Memory, Text, Tree};

/// The mark of an item among those of its list: a text that is the same for items that are one. None where an item is one
/// with no other.
pub(crate) fn mark_of(alloc: Global, kind: EntryKind, item: &Tree) -> Result<Option<Text>, Memory>
    ensures { IfOk result (λ mark. mark ≡ mark_of kind item.now) }
{
    match item {
        Tree::Map(entries) => mark_by(alloc, kind, entries.get()),
        _ => Ok(None),
    }
}

/// The mark of an entry, by its fields.
fn mark_by(alloc: Global, kind: EntryKind, entries: &Map) -> Result<Option<Text>, Memory>
    ensures { IfOk result (λ mark. mark ≡ option_map mark_text (key_by kind entries.now)) }
{
    match kind {
        EntryKind::Port => port_mark(alloc, entries),
        EntryKind::Mount => target_mark(alloc, entries),
        EntryKind::Secret => seen_mark(alloc, "/run/secrets/", true, entries),
        EntryKind::Config => seen_mark(alloc, "/", false, entries),
    }
}

fn port_mark(alloc: Global, entries: &Map) -> Result<Option<Text>, Memory>
    ensures { IfOk result (λ mark. mark ≡ option_map mark_text (port_key entries.now)) }
{
    match text_at(entries, "target") {
        None => Ok(None),
        Some(target) => {
            let mark = port_parts(alloc, target, entries)?;
            Ok(Some(mark))
        }
    }
}

/// The parts of a port: its target, the address of the host, what it is published as, and the protocol.
fn port_parts(alloc: Global, target: &Text, entries: &Map) -> Result<Text, Memory>
    ensures { IfOk result (λ mark.
        mark ≡ mark_text (Tree.Scalar target.now ∷ binding entries.now)) }
{
    let mut mark = counted(alloc, target)?;
    put_field(alloc, &mut mark, entries, "host_ip")?;
    put_field(alloc, &mut mark, entries, "published")?;
    put_protocol(alloc, &mut mark, entries)?;
    Ok(mark)
}

fn target_mark(alloc: Global, entries: &Map) -> Result<Option<Text>, Memory>
    ensures { IfOk result (λ mark.
        mark ≡ option_map mark_text (alone (text_at entries.now (codes "target")))) }
{
    match text_at(entries, "target") {
        None => Ok(None),
        Some(target) => {
            let mark = counted(alloc, target)?;
            Ok(Some(mark))
        }
    }
}

/// The mark of a secret or a config, by where its file is seen.
fn seen_mark(
    alloc: Global,
    folder: &str,
    joins: bool,
    entries: &Map,
) -> Result<Option<Text>, Memory>
    ensures { IfOk result (λ mark.
        mark ≡ option_map mark_text (alone (seen folder.now joins entries.now))) }
{
    match seen_at(joins, entries) {
        None => Ok(None),
        Some(found) => {
            let (below, name) = found;
            let mark = placed_part(alloc, folder, below, name)?;
            Ok(Some(mark))
        }
    }
}

fn placed_part(alloc: Global, folder: &str, below: bool, name: &Text) -> Result<Text, Memory>
    ensures { IfOk result (λ part. part ≡ counted (placed folder.now below name.now)) }
{
    if below {
        let mut path = Text::from_str(alloc, folder)?;
        path.push_str(name.as_str())?;
        counted(alloc, &path)
    } else {
        counted(alloc, name)
    }
}

/// Puts the part of a key last that a field is; null is as good as none.
fn put_field(alloc: Global, mark: &mut Text, entries: &Map, name: &str) -> Result<(), Memory>
    ensures { OnOk result (mark.new ≡ mark.old ++ written (field entries.now name.now)) }
{
    match entries.find(name) {
        Some(tree) => put_tree(alloc, mark, tree),
        None => mark.push_str("~"),
    }
}

/// Puts the part of a key last that the protocol of a port is.
fn put_protocol(alloc: Global, mark: &mut Text, entries: &Map) -> Result<(), Memory>
    ensures { OnOk result (mark.new ≡ mark.old ++ written (protocol_of entries.now)) }
{
    match protocol_at(entries) {
        Some(tree) => put_tree(alloc, mark, tree),
        None => {
            let usual = Text::from_str(alloc, "tcp")?;
            put_text(alloc, mark, &usual)
        }
    }
}
