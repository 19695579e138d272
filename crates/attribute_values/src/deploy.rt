ghost use Rattle.std.specs.Prelude.{◌≡◌, [], Ok, if◌then◌else◌, map};
ghost use Rattle.std.specs.Option.{option_and_then};
ghost use Rattle.tree_base.specs.declared.Step.TheVariants.{Key};
ghost use Rattle.tree_base.specs.declared.Tree.{out-Tree};
ghost use Rattle.attribute_types.specs.Answers.{Gives, refused, under};
ghost use Rattle.attribute_types.specs.declared.refusal.Fault.{Fault};
ghost use Rattle.attribute_values.specs.Forms.{count_of, counted_or_null, deploy_option, deployed, replicas_among, scale_of, text_or_null, update_option, update_options};
ghost use Rattle.attribute_scalars.specs.Lists.{text_in};
ghost use Rattle.attribute_scalars.specs.Walks.{each_entry, in_byte_order};
ghost use Rattle.attribute_scalars.specs.Scalars.{num_of};
ghost use Rattle.attribute_scalars.specs.Views.{passed, seen_entry};

use attribute_scalars::{
    Entry, entries_of, in_byte_order, mapping_in, num_of, refused, text_of, under_key, value_among,
};
use attribute_types::{AttributeRefusal, Fault, Value};
use short_forms::number;
use std::alloc::Global;
use tree_base::limits::MOST_CONTAINERS;
use tree_base::{Map, Text, Tree};

/// The number of a service's containers, at most 100, which `deploy` doesn't say otherwise.
pub(crate) fn scale_among(
    alloc: Global,
    beside: &[Entry],
    tree: &Tree,
) -> Result<Option<Value>, AttributeRefusal>
    ensures { Gives result
        (scale_of (map seen_entry beside.now) (out-Tree tree.now)) }
{
    let Some(count) = num_in(tree) else {
        return Err(refused(alloc, Fault::WrongKind));
    };
    match replicas_among(beside) {
        Some(replicas) if replicas != count => Err(refused(alloc, Fault::BadValue)),
        _ if count > MOST_CONTAINERS as u64 => Err(refused(alloc, Fault::BadValue)),
        _ => Ok(Some(Value::Num(count))),
    }
}

fn num_in(tree: &Tree) -> Option<u64>
    ensures { result ≡ option_and_then num_of (text_in (out-Tree tree.now)) }
{
    num_of(text_of(tree)?.as_str())
}

/// The number of containers that stands in `deploy`.
fn replicas_among(beside: &[Entry]) -> Option<u64>
    ensures { result ≡ replicas_among (map seen_entry beside.now) }
{
    match value_among(beside, "deploy")? {
        Tree::Map(deploy) => count_of(text_of(deploy.get().find("replicas")?)?),
        _ => None,
    }
}

/// A number of a service's containers.
fn count_of(text: &Text) -> Option<u64>
    ensures { result ≡ count_of text.now }
{
    number(text.as_str().as_bytes(), MOST_CONTAINERS as u64)
}

/// How a service is deployed, as it is read.
pub(crate) fn deployed(alloc: Global, tree: &Tree) -> Result<Tree, AttributeRefusal>
    ensures { Gives result (deployed tree.now (out-Tree tree.now)) }
{
    if let Tree::Map(entries) = tree {
        ask_deploy(alloc, entries.get())?;
    }
    mapping_in(alloc, tree)
}

/// Asks what stands in `deploy`.
fn ask_deploy(alloc: Global, entries: &Map) -> Result<(), AttributeRefusal>
    ensures { Gives (passed result) (each_entry
        (λ key tree. deploy_option key (out-Tree tree)) (in_byte_order entries.now)) }
{
    let sorted = in_byte_order(entries_of(alloc, entries)?)?;
    ask_deploy_entries(alloc, sorted.as_slice())
}

fn ask_deploy_entries(alloc: Global, entries: &[Entry]) -> Result<(), AttributeRefusal>
    ensures { Gives (passed result) (each_entry
        (λ key tree. deploy_option key (out-Tree tree)) (map seen_entry entries.now)) }
{
    for entry in entries {
        ask_deploy_entry(alloc, entry)?;
    }
    Ok(())
}

/// Asks an entry, which is refused under its key.
fn ask_deploy_entry(alloc: Global, entry: &Entry) -> Result<(), AttributeRefusal>
    ensures { Gives (passed result) (under (Key entry.now.key.now)
        (deploy_option entry.now.key.now (out-Tree entry.now.value.now))) }
{
    match ask_deploy_option(alloc, entry) {
        Ok(()) => Ok(()),
        Err(refusal) => Err(under_key(alloc, entry.key, refusal)),
    }
}

fn ask_deploy_option(alloc: Global, entry: &Entry) -> Result<(), AttributeRefusal>
    ensures { Gives (passed result)
        (deploy_option entry.now.key.now (out-Tree entry.now.value.now)) }
{
    match entry.key {
        "replicas" => ask_number(alloc, is_count(entry.value)),
        "update_config" => ask_updates(alloc, entry.value),
        _ => Ok(()),
    }
}

/// Asks how a service is updated, in a mapping.
fn ask_updates(alloc: Global, tree: &Tree) -> Result<(), AttributeRefusal>
    ensures { Gives (passed result) (update_options (out-Tree tree.now)) }
{
    match tree {
        Tree::Null => Ok(()),
        Tree::Map(entries) => ask_update(alloc, entries.get()),
        _ => Err(refused(alloc, Fault::WrongKind)),
    }
}

/// Whether a tree is null or a number of a service's containers.
fn is_count(tree: &Tree) -> bool
    ensures { (if result then Ok [] else refused Fault.BadValue)
        ≡ counted_or_null count_of (out-Tree tree.now) }
{
    match tree {
        Tree::Null => true,
        Tree::Scalar(text) => count_of(text).is_some(),
        _ => false,
    }
}

/// Whether a tree is null or a number.
fn is_num(tree: &Tree) -> bool
    ensures { (if result then Ok [] else refused Fault.BadValue)
        ≡ counted_or_null num_of (out-Tree tree.now) }
{
    match tree {
        Tree::Null => true,
        Tree::Scalar(text) => num_of(text.as_str()).is_some(),
        _ => false,
    }
}

fn ask_number(alloc: Global, is_number: bool) -> Result<(), AttributeRefusal>
    ensures { passed result ≡ (if is_number then Ok [] else refused Fault.BadValue) }
{
    if is_number {
        Ok(())
    } else {
        Err(refused(alloc, Fault::BadValue))
    }
}

/// Asks how a service is updated.
fn ask_update(alloc: Global, entries: &Map) -> Result<(), AttributeRefusal>
    ensures { Gives (passed result) (each_entry
        (λ key tree. update_option key (out-Tree tree)) (in_byte_order entries.now)) }
{
    let sorted = in_byte_order(entries_of(alloc, entries)?)?;
    ask_update_entries(alloc, sorted.as_slice())
}

fn ask_update_entries(alloc: Global, entries: &[Entry]) -> Result<(), AttributeRefusal>
    ensures { Gives (passed result) (each_entry
        (λ key tree. update_option key (out-Tree tree)) (map seen_entry entries.now)) }
{
    for entry in entries {
        ask_update_entry(alloc, entry)?;
    }
    Ok(())
}

/// Asks an entry, which is refused under its key.
fn ask_update_entry(alloc: Global, entry: &Entry) -> Result<(), AttributeRefusal>
    ensures { Gives (passed result) (under (Key entry.now.key.now)
        (update_option entry.now.key.now (out-Tree entry.now.value.now))) }
{
    match ask_update_option(alloc, entry) {
        Ok(()) => Ok(()),
        Err(refusal) => Err(under_key(alloc, entry.key, refusal)),
    }
}

fn ask_update_option(alloc: Global, entry: &Entry) -> Result<(), AttributeRefusal>
    ensures { Gives (passed result)
        (update_option entry.now.key.now (out-Tree entry.now.value.now)) }
{
    match entry.key {
        "parallelism" => ask_number(alloc, is_num(entry.value)),
        "failure_action" | "order" => ask_text(alloc, entry.value),
        _ => Ok(()),
    }
}

fn ask_text(alloc: Global, tree: &Tree) -> Result<(), AttributeRefusal>
    ensures { passed result ≡ text_or_null (out-Tree tree.now) }
{
    match tree {
        Tree::Null | Tree::Scalar(_) => Ok(()),
        _ => Err(refused(alloc, Fault::WrongKind)),
    }
}
