ghost use Rattle.std.specs.Prelude.{◌≡◌, IfOk, codes, map};
ghost use Rattle.tree_base.specs.declared.Step.TheVariants.{Key};
ghost use Rattle.tree_base.specs.declared.Tree.{out-Tree};
ghost use Rattle.attribute_types.specs.Answers.{Gives, under};
ghost use Rattle.attribute_scalars.specs.Views.{behind, just_one, onto, seen_entry};
ghost use Rattle.attribute_scalars.specs.Walks.{each_entry};
ghost use Rattle.project_meaning.specs.Meaning.{all_declared, declared_as, network_of};
ghost use Rattle.project_meaning.specs.Parts.{network_from};

use crate::attributes::{fields_under, with_name};
use crate::entries::{is_key, section};
use attribute_scalars::{Entry, refused, under_key};
use attribute_types::{Attribute, AttributeRefusal, Fault, network_lines};
use std::alloc::Global;
use tree_base::{List, Memory, Text, Tree};
use typed_project::Network;

/// The networks that a project declares, in byte order of their keys, or the first that is refused.
pub(crate) fn networks_declared(
    alloc: Global,
    project: &Text,
    elements: &[Entry],
) -> Result<List<Network>, AttributeRefusal>
    ensures { Gives result (all_declared (network_of project.now)
        (map seen_entry elements.now) (codes "networks")) }
{
    let sorted = section(alloc, elements, "networks")?;
    match networks_in(alloc, project, sorted.as_slice()) {
        Ok(list) => Ok(list),
        Err(refusal) => Err(under_key(alloc, "networks", refusal)),
    }
}

/// The networks of entries, in their order.
fn networks_in(
    alloc: Global,
    project: &Text,
    entries: &[Entry],
) -> Result<List<Network>, AttributeRefusal>
    ensures { Gives result (each_entry (declared_as (network_of project.now))
        (map seen_entry entries.now)) }
{
    let mut list = List::new(alloc);
    for entry in entries {
        put_network(alloc, project, entry, &mut list)?;
    }
    Ok(list)
}

/// Puts the network of an entry last, or refuses it under its key.
fn put_network(
    alloc: Global,
    project: &Text,
    entry: &Entry,
    list: &mut List<Network>,
) -> Result<(), AttributeRefusal>
    ensures { Gives (onto list.new result) (behind list.old (under (Key entry.now.key.now)
        (declared_as (network_of project.now) entry.now.key.now entry.now.value.now))) }
{
    match declared(alloc, project, entry) {
        Ok(one) => Ok(list.push(one)?),
        Err(refusal) => Err(under_key(alloc, entry.key, refusal)),
    }
}

/// The network of an entry, whose key is asked first.
fn declared(alloc: Global, project: &Text, entry: &Entry) -> Result<Network, AttributeRefusal>
    ensures { Gives (just_one result)
        (declared_as (network_of project.now) entry.now.key.now entry.now.value.now) }
{
    if is_key(entry.key) {
        network_of(alloc, project, entry.key, entry.value)
    } else {
        Err(refused(alloc, Fault::BadValue))
    }
}

/// The network of a tree under a key (Compose Specification, networks).
fn network_of(
    alloc: Global,
    project: &Text,
    key: &str,
    tree: &Tree,
) -> Result<Network, AttributeRefusal>
    ensures { Gives result (network_of project.now key.now (out-Tree tree.now)) }
{
    let attributes = fields_under(alloc, network_lines(), &[], tree)?;
    Ok(network_from(alloc, project, key, attributes)?)
}

/// A network by its attributes.
fn network_from(
    alloc: Global,
    project: &Text,
    key: &str,
    attributes: List<Attribute>,
) -> Result<Network, Memory>
    ensures { IfOk result (λ one. one ≡ network_from project.now key.now attributes) }
{
    let attributes = with_name(alloc, project, key, attributes)?;
    Ok(Network {
        key: Text::from_str(alloc, key)?,
        attributes,
    })
}
