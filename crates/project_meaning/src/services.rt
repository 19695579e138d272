ghost use Rattle.std.specs.Prelude.{IfOk, codes, map};
ghost use Rattle.tree_base.specs.declared.Step.TheVariants.{Key};
ghost use Rattle.tree_base.specs.declared.Tree.{out-Tree};
ghost use Rattle.attribute_types.specs.Answers.{Gives, under};
ghost use Rattle.attribute_scalars.specs.Views.{behind, just_one, onto, seen_entry};
ghost use Rattle.attribute_scalars.specs.Walks.{each_entry};
ghost use Rattle.typed_project.specs.Projects.{IsInOrder};
ghost use Rattle.project_meaning.specs.Meaning.{all_declared, declared_as, service_of};

use crate::entries::{is_key, section};
use attribute_rows::{attributes_of, map_of};
use attribute_scalars::{Entry, refused, under_key};
use attribute_types::{AttributeRefusal, Fault};
use std::alloc::Global;
use tree_base::{List, Text, Tree};
use typed_project::Service;

/// The services that a project declares, in byte order of their keys, or the first that is refused.
pub(crate) fn services_declared(
    alloc: Global,
    elements: &[Entry],
) -> Result<List<Service>, AttributeRefusal>
    ensures value { Gives result
        (all_declared service_of (map seen_entry elements.now) (codes "services")) }
    ensures order { IfOk result (λ services. IsInOrder services) }
{
    let sorted = section(alloc, elements, "services")?;
    match services_in(alloc, sorted.as_slice()) {
        Ok(list) => Ok(list),
        Err(refusal) => Err(under_key(alloc, "services", refusal)),
    }
}

/// The services of entries, in their order.
fn services_in(alloc: Global, entries: &[Entry]) -> Result<List<Service>, AttributeRefusal>
    ensures { Gives result
        (each_entry (declared_as service_of) (map seen_entry entries.now)) }
{
    let mut list = List::new(alloc);
    for entry in entries {
        put_service(alloc, entry, &mut list)?;
    }
    Ok(list)
}

/// Puts the service of an entry last, or refuses it under its key.
fn put_service(
    alloc: Global,
    entry: &Entry,
    list: &mut List<Service>,
) -> Result<(), AttributeRefusal>
    ensures { Gives (onto list.new result) (behind list.old (under (Key entry.now.key.now)
        (declared_as service_of entry.now.key.now entry.now.value.now))) }
{
    match declared(alloc, entry) {
        Ok(one) => Ok(list.push(one)?),
        Err(refusal) => Err(under_key(alloc, entry.key, refusal)),
    }
}

/// The service of an entry, whose key is asked first.
fn declared(alloc: Global, entry: &Entry) -> Result<Service, AttributeRefusal>
    ensures { Gives (just_one result)
        (declared_as service_of entry.now.key.now entry.now.value.now) }
{
    if is_key(entry.key) {
        service_of(alloc, entry.key, entry.value)
    } else {
        Err(refused(alloc, Fault::BadValue))
    }
}

/// The service of a tree under a key (Compose Specification, services).
fn service_of(alloc: Global, key: &str, tree: &Tree) -> Result<Service, AttributeRefusal>
    ensures { Gives result (service_of key.now (out-Tree tree.now)) }
{
    let attributes = attributes_of(alloc, map_of(alloc, tree)?)?;
    Ok(Service {
        key: Text::from_str(alloc, key)?,
        attributes,
    })
}
