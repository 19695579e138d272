ghost use Rattle.std.specs.Prelude.{◌≡◌, [], codes, length, map, unwrap_or};
ghost use Rattle.std.specs.List.{zip};
ghost use Rattle.std.specs.Option.{option_copied};
ghost use Rattle.tree_base.specs.declared.Tree.{out-Tree};
ghost use Rattle.tree_base.specs.declared.Step.TheVariants.{Index, Key};
ghost use Rattle.merge_tables.specs.Answers.{Gives, UpGives, place, under};
ghost use Rattle.merge_tables.specs.declared.refusal.MergeRefusal.{MergeRefusal};
ghost use Rattle.merge_tables.specs.Parts.{field};
ghost use Rattle.merge_rules.specs.UnderExtends.{content, entries_allowed, entries_asked, entries_of, extends_one, file_over, is_given, items_asked, marks_allowed, service_allowed, services_allowed, unmarked, values_unmarked};

use crate::layers::overlay_onto;
use merge_tables::{MergeRefusal, from_root, place, with_step};
use std::alloc::Global;
use tree_base::{List, Map, Step, Text, Tree};

/// A file's tree over what the files before it gave, which has no mark: `overlay_onto`, where no mark stands in a service
/// that extends another one in this file.
///
/// Else the refusal is `MarkUnderExtends` with the path of the first such mark, in the file's order, before any other.
pub fn overlay_file(alloc: Global, base: Tree, over: &Tree) -> Result<Tree, MergeRefusal>
    ensures { Gives result (file_over base over.now) }
{
    match marks_allowed(alloc, over) {
        Ok(()) => overlay_onto(alloc, base, over),
        Err(refusal) => {
            drop(base);
            Err(from_root(refusal))
        }
    }
}

/// The first mark of a file in a service that extends another one.
fn marks_allowed(alloc: Global, tree: &Tree) -> Result<(), MergeRefusal>
    ensures { UpGives result (marks_allowed tree.now) }
{
    match map_in(tree) {
        None => Ok(()),
        Some(entries) => services_in(alloc, entries),
    }
}

fn services_in(alloc: Global, entries: &Map) -> Result<(), MergeRefusal>
    ensures { UpGives result (under (Key (codes "services"))
        (services_allowed (field entries.now (codes "services")))) }
{
    match entries.find("services") {
        None => Ok(()),
        Some(services) => named_services(alloc, services),
    }
}

fn named_services(alloc: Global, services: &Tree) -> Result<(), MergeRefusal>
    ensures { UpGives result (under (Key (codes "services")) (services_allowed services.now)) }
{
    match services_allowed(alloc, services) {
        Ok(()) => Ok(()),
        Err(refusal) => Err(with_step(refusal, Step::Key(Text::from_str(alloc, "services")?))?),
    }
}

/// The first mark of some services, of those that extend another one.
fn services_allowed(alloc: Global, services: &Tree) -> Result<(), MergeRefusal>
    ensures { UpGives result (services_allowed services.now) }
{
    match map_in(services) {
        None => Ok(()),
        Some(entries) => each_allowed(alloc, entries.values(), entries.keys()),
    }
}

fn each_allowed(alloc: Global, values: &[Tree], keys: &[Text]) -> Result<(), MergeRefusal>
    requires { length keys.now ≡ length values.now }
    ensures { UpGives result (entries_asked (zip keys.now (map service_allowed values.now))) }
{
    for (at, value) in values.iter().enumerate() {
        one_allowed(alloc, value, &keys[at])?;
    }
    Ok(())
}

/// The first mark of a service of this name.
fn one_allowed(alloc: Global, service: &Tree, name: &Text) -> Result<(), MergeRefusal>
    ensures { UpGives result (under (Key name.now) (service_allowed service.now)) }
{
    match service_allowed(alloc, service) {
        Ok(()) => Ok(()),
        Err(refusal) => Err(with_step(refusal, Step::Key(name.copy(alloc)?))?),
    }
}

/// The first mark of a service, where it extends another one.
fn service_allowed(alloc: Global, service: &Tree) -> Result<(), MergeRefusal>
    ensures { UpGives result (service_allowed service.now) }
{
    match map_in(service) {
        None => Ok(()),
        Some(entries) => entries_allowed(alloc, entries),
    }
}

fn entries_allowed(alloc: Global, entries: &Map) -> Result<(), MergeRefusal>
    ensures { UpGives result (entries_allowed entries.now) }
{
    if extends_one(entries) {
        map_unmarked(alloc, entries)
    } else {
        Ok(())
    }
}

/// Whether a service extends another one.
fn extends_one(entries: &Map) -> bool
    ensures { result ≡ extends_one entries.now }
{
    match entries.find("extends") {
        None => false,
        Some(tree) => is_named(tree),
    }
}

fn is_named(tree: &Tree) -> bool
    ensures { result ≡ is_given (content (out-Tree tree.now)) }
{
    match tree {
        Tree::Override(inner) => is_given(inner.get()),
        _ => is_given(tree),
    }
}

fn is_given(tree: &Tree) -> bool
    ensures { result ≡ is_given (out-Tree tree.now) }
{
    match tree {
        Tree::Null => false,
        Tree::Reset => false,
        _ => true,
    }
}

/// The entries of a mapping, which may stand under a mark `!override`.
fn map_in(tree: &Tree) -> Option<&Map>
    ensures { entries_of tree.now ≡ unwrap_or (option_copied result) [] }
{
    match tree {
        Tree::Map(entries) => Some(entries.get()),
        Tree::Override(inner) => match inner.get() {
            Tree::Map(entries) => Some(entries.get()),
            _ => None,
        },
        _ => None,
    }
}

/// The first mark of a tree.
#[cycle(unmarked)]
fn unmarked(alloc: Global, tree: &Tree) -> Result<(), MergeRefusal>
    ensures { UpGives result (unmarked tree.now) }
{
    match tree {
        Tree::Null => Ok(()),
        Tree::Scalar(_) => Ok(()),
        Tree::Map(entries) => map_unmarked(alloc, entries.get()),
        Tree::Seq(items) => items_unmarked(alloc, items.as_slice()),
        Tree::Reset => Err(mark(alloc)),
        Tree::Override(_) => Err(mark(alloc)),
    }
}

/// A mark that may not stand here, at the path that leads here.
fn mark(alloc: Global) -> MergeRefusal
    ensures { result ≡ MergeRefusal.MarkUnderExtends [] }
{
    MergeRefusal::MarkUnderExtends {
        path: List::new(alloc),
    }
}

#[cycle(unmarked)]
fn map_unmarked(alloc: Global, entries: &Map) -> Result<(), MergeRefusal>
    ensures { UpGives result (values_unmarked entries.now) }
{
    values_unmarked(alloc, entries.values(), entries.keys())
}

#[cycle(unmarked)]
fn values_unmarked(alloc: Global, values: &[Tree], keys: &[Text]) -> Result<(), MergeRefusal>
    requires { length keys.now ≡ length values.now }
    ensures { UpGives result (entries_asked (zip keys.now (map unmarked values.now))) }
{
    for (at, value) in values.iter().enumerate() {
        value_unmarked(alloc, value, &keys[at])?;
    }
    Ok(())
}

#[cycle(unmarked)]
fn value_unmarked(alloc: Global, value: &Tree, key: &Text) -> Result<(), MergeRefusal>
    ensures { UpGives result (under (Key key.now) (unmarked value.now)) }
{
    match unmarked(alloc, value) {
        Ok(()) => Ok(()),
        Err(refusal) => Err(with_step(refusal, Step::Key(key.copy(alloc)?))?),
    }
}

#[cycle(unmarked)]
fn items_unmarked(alloc: Global, items: &[Tree]) -> Result<(), MergeRefusal>
    ensures { UpGives result (items_asked 0 (map unmarked items.now)) }
{
    for (at, item) in items.iter().enumerate() {
        item_unmarked(alloc, item, at)?;
    }
    Ok(())
}

#[cycle(unmarked)]
fn item_unmarked(alloc: Global, item: &Tree, at: usize) -> Result<(), MergeRefusal>
    ensures { UpGives result (under (Index (place at)) (unmarked item.now)) }
{
    match unmarked(alloc, item) {
        Ok(()) => Ok(()),
        Err(refusal) => Err(with_step(refusal, Step::Index(place(at)))?),
    }
}
