ghost use Rattle.std.specs.Prelude.{◌≡◌, ◌↔◌, ◌<◌, ◌++◌, List, ℕ, IfSome, IsTrue, codes, length, map, true, unwrap_or};
ghost use Rattle.std.specs.Option.{option_copied, option_map};
ghost use Rattle.std.specs.Str.{bytes_eq};
ghost use Rattle.tree_base.specs.declared.Tree.{Tree};
ghost use Rattle.merge_rules.specs.Sameness.{same, same_items};
ghost use Rattle.merge_rules.specs.Uniqueness.{alone, are_one, binding, is_relative, key_by, place_of, placed, port_key, protocol_of, same_keys, seen, text_at};
ghost use Rattle.merge_tables.specs.Parts.{field};

use merge_tables::EntryKind;
use tree_base::{Map, Text, Tree};

/// The place of the first of some items that is one with an item. No memory.
pub fn place_of(kind: EntryKind, item: &Tree, items: &[Tree]) -> Option<usize>
    ensures place { result ≡ place_of kind item.now items.now }
    ensures within { IfSome result (λ at. at < length items.now) }
{
    items.iter().position(|other| are_one(kind, item, other))
}

/// Whether two items are one.
pub(crate) fn are_one(kind: EntryKind, item: &Tree, other: &Tree) -> bool
    ensures { result ≡ are_one kind item.now other.now }
{
    match item {
        Tree::Map(entries) => match other {
            Tree::Map(others) => same_entry(kind, entries.get(), others.get()),
            _ => false,
        },
        _ => false,
    }
}

/// Whether two entries of a list are one.
fn same_entry(kind: EntryKind, entries: &Map, others: &Map) -> bool
    ensures { result ≡ same_keys (key_by kind entries.now) (key_by kind others.now) }
{
    match kind {
        EntryKind::Port => same_port(entries, others),
        EntryKind::Mount => same_target(entries, others),
        EntryKind::Secret => same_file("/run/secrets/", true, entries, others),
        EntryKind::Config => same_file("/", false, entries, others),
    }
}

/// Whether two ports are one.
fn same_port(entries: &Map, others: &Map) -> bool
    ensures { result ≡ same_keys (port_key entries.now) (port_key others.now) }
{
    match (text_at(entries, "target"), text_at(others, "target")) {
        (Some(target), Some(other)) => target == other && same_binding(entries, others),
        _ => false,
    }
}

/// Whether two ports have one address of the host, are published as the same, and have one protocol.
fn same_binding(entries: &Map, others: &Map) -> bool
    ensures { result ≡ same_items (map same (binding entries.now)) (binding others.now) }
{
    same_field(entries, others, "host_ip")
        && same_field(entries, others, "published")
        && same_protocol(entries, others)
}

/// Whether two entries have the same field, where null is as good as none.
fn same_field(entries: &Map, others: &Map, name: &str) -> bool
    ensures { result ≡ same (field entries.now name.now) (field others.now name.now) }
{
    match (entries.find(name), others.find(name)) {
        (Some(tree), Some(other)) => are_same(tree, other),
        (Some(tree), None) => is_null(tree),
        (None, Some(other)) => is_null(other),
        (None, None) => true,
    }
}

/// Whether two ports have the same protocol, which is tcp where none is given.
fn same_protocol(entries: &Map, others: &Map) -> bool
    ensures { result ≡ same (protocol_of entries.now) (protocol_of others.now) }
{
    match (protocol_at(entries), protocol_at(others)) {
        (Some(tree), Some(other)) => are_same(tree, other),
        (Some(tree), None) => is_tcp(tree),
        (None, Some(other)) => is_tcp(other),
        (None, None) => true,
    }
}

/// Whether two trees are the same.
fn are_same(tree: &Tree, other: &Tree) -> bool
    ensures { result ≡ same tree.now other.now }
{
    tree.same(other)
}

/// Whether a tree is null.
fn is_null(tree: &Tree) -> bool
    ensures { result ≡ same tree.now Tree.Null }
{
    let null = Tree::Null;
    let is = are_same(tree, &null);
    drop(null);
    is
}

/// Whether a tree is the protocol tcp.
fn is_tcp(tree: &Tree) -> bool
    ensures { IsTrue result ↔ (tree.now ≡ Tree.Scalar (codes "tcp")) }
{
    match tree {
        Tree::Scalar(text) => text.as_str() == "tcp",
        _ => false,
    }
}

/// The protocol that a port names; null is as good as none.
pub(crate) fn protocol_at(entries: &Map) -> Option<&Tree>
    ensures { protocol_of entries.now ≡
        unwrap_or (option_copied result) (Tree.Scalar (codes "tcp")) }
{
    match entries.find("protocol") {
        None => None,
        Some(Tree::Null) => None,
        Some(named) => Some(named),
    }
}

/// The text of a field that is a scalar.
pub(crate) fn text_at<'a>(entries: &'a Map, name: &str) -> Option<&'a Text>
    ensures { option_copied result ≡ text_at entries.now name.now }
{
    match entries.find(name) {
        Some(Tree::Scalar(text)) => Some(text),
        _ => None,
    }
}

/// Whether two mounts have the same target.
fn same_target(entries: &Map, others: &Map) -> bool
    ensures { result ≡ same_keys (alone (text_at entries.now (codes "target")))
        (alone (text_at others.now (codes "target"))) }
{
    match (text_at(entries, "target"), text_at(others, "target")) {
        (Some(target), Some(other)) => target == other,
        _ => false,
    }
}

/// Whether the files of two secrets or configs are seen at the same path.
fn same_file(folder: &str, joins: bool, entries: &Map, others: &Map) -> bool
    ensures { result ≡ same_keys (alone (seen folder.now joins entries.now))
        (alone (seen folder.now joins others.now)) }
{
    match (seen_at(joins, entries), seen_at(joins, others)) {
        (Some(seen), Some(other)) => {
            let (below, name) = seen;
            let (other_below, other_name) = other;
            same_place(folder, below, name, other_below, other_name)
        }
        _ => false,
    }
}

/// Whether two names are one path, where each is in a folder or as it is.
fn same_place(folder: &str, below: bool, name: &Text, other_below: bool, other: &Text) -> bool
    ensures { result ≡ bytes_eq (placed folder.now below name.now)
        (placed folder.now other_below other.now) }
{
    if below == other_below {
        name == other
    } else if below {
        is_in(other.as_str(), folder, name.as_str())
    } else {
        is_in(name.as_str(), folder, other.as_str())
    }
}

/// Whether a path is that of a name in a folder.
fn is_in(path: &str, folder: &str, name: &str) -> bool
    ensures { IsTrue result ↔ (path.now ≡ folder.now ++ name.now) }
{
    match path.as_bytes().strip_prefix(folder.as_bytes()) {
        Some(rest) => rest == name.as_bytes(),
        None => false,
    }
}

/// Where the file of an entry is seen: a name in the folder, or the path as it is.
pub(crate) fn seen_at(joins: bool, entries: &Map) -> Option<(bool, &Text)>
    ensures { (folder : List ℕ) → seen folder joins entries.now ≡
        option_map (λ found. placed folder found.0 found.1.now) result }
{
    match entries.find("target") {
        None => by_source(entries),
        Some(Tree::Null) => by_source(entries),
        Some(Tree::Scalar(target)) => Some((joins && is_relative(target), target)),
        Some(_) => None,
    }
}

/// The name of an entry's source, in the folder.
fn by_source(entries: &Map) -> Option<(bool, &Text)>
    ensures { (folder : List ℕ) → option_map (placed folder true)
        (text_at entries.now (codes "source")) ≡
        option_map (λ found. placed folder found.0 found.1.now) result }
{
    let source = text_at(entries, "source")?;
    Some((true, source))
}

/// Whether a path begins at no root.
fn is_relative(path: &Text) -> bool
    ensures { result ≡ is_relative path.now }
{
    !path.as_str().starts_with('/')
}
