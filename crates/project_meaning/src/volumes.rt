ghost use Rattle.std.specs.Prelude.{◌≡◌, IfOk, codes, map};
ghost use Rattle.tree_base.specs.declared.Step.TheVariants.{Key};
ghost use Rattle.tree_base.specs.declared.Tree.{out-Tree};
ghost use Rattle.attribute_types.specs.Answers.{Gives, under};
ghost use Rattle.attribute_scalars.specs.Views.{behind, just_one, onto, seen_entry};
ghost use Rattle.attribute_scalars.specs.Walks.{each_entry};
ghost use Rattle.project_meaning.specs.Meaning.{all_declared, declared_as, volume_of};
ghost use Rattle.project_meaning.specs.Parts.{volume_from};

use crate::attributes::{fields_under, with_name};
use crate::entries::{is_key, section};
use attribute_scalars::{Entry, refused, under_key};
use attribute_types::{Attribute, AttributeRefusal, Fault, volume_lines};
use std::alloc::Global;
use tree_base::{List, Memory, Text, Tree};
use typed_project::Volume;

/// The volumes that a project declares, in byte order of their keys, or the first that is refused.
pub(crate) fn volumes_declared(
    alloc: Global,
    project: &Text,
    elements: &[Entry],
) -> Result<List<Volume>, AttributeRefusal>
    ensures { Gives result (all_declared (volume_of project.now)
        (map seen_entry elements.now) (codes "volumes")) }
{
    let sorted = section(alloc, elements, "volumes")?;
    match volumes_in(alloc, project, sorted.as_slice()) {
        Ok(list) => Ok(list),
        Err(refusal) => Err(under_key(alloc, "volumes", refusal)),
    }
}

/// The volumes of entries, in their order.
fn volumes_in(
    alloc: Global,
    project: &Text,
    entries: &[Entry],
) -> Result<List<Volume>, AttributeRefusal>
    ensures { Gives result (each_entry (declared_as (volume_of project.now))
        (map seen_entry entries.now)) }
{
    let mut list = List::new(alloc);
    for entry in entries {
        put_volume(alloc, project, entry, &mut list)?;
    }
    Ok(list)
}

/// Puts the volume of an entry last, or refuses it under its key.
fn put_volume(
    alloc: Global,
    project: &Text,
    entry: &Entry,
    list: &mut List<Volume>,
) -> Result<(), AttributeRefusal>
    ensures { Gives (onto list.new result) (behind list.old (under (Key entry.now.key.now)
        (declared_as (volume_of project.now) entry.now.key.now entry.now.value.now))) }
{
    match declared(alloc, project, entry) {
        Ok(one) => Ok(list.push(one)?),
        Err(refusal) => Err(under_key(alloc, entry.key, refusal)),
    }
}

/// The volume of an entry, whose key is asked first.
fn declared(alloc: Global, project: &Text, entry: &Entry) -> Result<Volume, AttributeRefusal>
    ensures { Gives (just_one result)
        (declared_as (volume_of project.now) entry.now.key.now entry.now.value.now) }
{
    if is_key(entry.key) {
        volume_of(alloc, project, entry.key, entry.value)
    } else {
        Err(refused(alloc, Fault::BadValue))
    }
}

/// The volume of a tree under a key (Compose Specification, volumes).
fn volume_of(
    alloc: Global,
    project: &Text,
    key: &str,
    tree: &Tree,
) -> Result<Volume, AttributeRefusal>
    ensures { Gives result (volume_of project.now key.now (out-Tree tree.now)) }
{
    let attributes = fields_under(alloc, volume_lines(), &[], tree)?;
    Ok(volume_from(alloc, project, key, attributes)?)
}

/// A volume by its attributes.
fn volume_from(
    alloc: Global,
    project: &Text,
    key: &str,
    attributes: List<Attribute>,
) -> Result<Volume, Memory>
    ensures { IfOk result (λ one. one ≡ volume_from project.now key.now attributes) }
{
    let attributes = with_name(alloc, project, key, attributes)?;
    Ok(Volume {
        key: Text::from_str(alloc, key)?,
        attributes,
    })
}
