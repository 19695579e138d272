ghost use Rattle.std.specs.Prelude.{◌≡◌, ◌∷◌, [], IfOk, Ok, Some, codes, ◌++◌, map};
ghost use Rattle.tree_base.specs.declared.Step.TheVariants.{Key};
ghost use Rattle.tree_base.specs.declared.Tree.{out-Tree};
ghost use Rattle.attribute_types.specs.Answers.{Gives, under};
ghost use Rattle.attribute_scalars.specs.Views.{behind, just_one, onto, seen_entry};
ghost use Rattle.attribute_scalars.specs.Walks.{each_entry};
ghost use Rattle.attribute_rows.specs.Rows.{condition_of, dependency_from, dependency_of, keyed};
ghost use Rattle.attribute_types.specs.Lookups.{text_at};

use crate::entries::{NO_NAMES, fields_in, map_of, sorted_entries};
use attribute_scalars::{Entry, is_null, under_key};
use attribute_types::{
    Attribute, AttributeRefusal, Dependency, DependencyCondition, bool_named, dependency_lines,
    text_named,
};
use std::alloc::Global;
use tree_base::{List, Memory, Text, Tree};

/// The dependencies of a mapping, in byte order of their keys.
pub(crate) fn dependencies_of(
    alloc: Global,
    tree: &Tree,
) -> Result<List<Dependency>, AttributeRefusal>
    ensures { Gives result (keyed dependency_of (out-Tree tree.now)) }
{
    let sorted = sorted_entries(alloc, map_of(alloc, tree)?)?;
    dependencies_in(alloc, sorted.as_slice())
}

/// The dependencies of entries, in their order.
fn dependencies_in(alloc: Global, entries: &[Entry]) -> Result<List<Dependency>, AttributeRefusal>
    ensures { Gives result (each_entry
        (λ key value. dependency_of key (out-Tree value)) (map seen_entry entries.now)) }
{
    let mut list = List::new(alloc);
    for entry in entries {
        put_dependency(alloc, entry, &mut list)?;
    }
    Ok(list)
}

/// Puts what an entry gives last, or refuses it under its key.
fn put_dependency(
    alloc: Global,
    entry: &Entry,
    list: &mut List<Dependency>,
) -> Result<(), AttributeRefusal>
    ensures { Gives (onto list.new result)
        (behind list.old (under (Key entry.now.key.now)
        (dependency_of entry.now.key.now (out-Tree entry.now.value.now)))) }
{
    match dependency_of(alloc, entry.key, entry.value) {
        Ok(one) => Ok(list.push(one)?),
        Err(refusal) => Err(under_key(alloc, entry.key, refusal)),
    }
}

/// A dependency under its key; null is one of which nothing is said.
fn dependency_of(alloc: Global, key: &str, tree: &Tree) -> Result<Dependency, AttributeRefusal>
    ensures { Gives (just_one result) (dependency_of key.now (out-Tree tree.now)) }
{
    if is_null(tree) {
        return Ok(dependency_from(alloc, key, &[])?);
    }
    let attributes = fields_in(alloc, dependency_lines(), &NO_NAMES, tree)?;
    Ok(dependency_from(alloc, key, attributes.as_slice())?)
}

/// A dependency by its attributes.
fn dependency_from(alloc: Global, key: &str, attributes: &[Attribute]) -> Result<Dependency, Memory>
    ensures { IfOk result (λ need. need ≡ dependency_from key.now attributes.now) }
{
    Ok(Dependency {
        key: Text::from_str(alloc, key)?,
        condition: condition_in(attributes),
        required: bool_named(attributes, "required").unwrap_or(true),
        restart: bool_named(attributes, "restart").is_some(),
    })
}

/// What is waited for, by its word.
fn condition_in(attributes: &[Attribute]) -> DependencyCondition
    ensures { result ≡ condition_of (text_at attributes.now (codes "condition")) }
{
    match text_named(attributes, "condition") {
        Some(word) => condition_of(word.as_str()),
        None => DependencyCondition::Started,
    }
}

fn condition_of(word: &str) -> DependencyCondition
    ensures { result ≡ condition_of (Some word.now) }
{
    match word {
        "service_healthy" => DependencyCondition::Healthy,
        "service_completed_successfully" => DependencyCondition::Completed,
        _ => DependencyCondition::Started,
    }
}
