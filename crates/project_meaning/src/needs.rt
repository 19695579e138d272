ghost use Rattle.std.specs.Prelude.{◌≡◌, ◌++◌, ◌∷◌, [], IfOk, OnOk, codes, filter};
ghost use Rattle.std.specs.Option.{option_map};
ghost use Rattle.attribute_types.specs.declared.attribute.Value.{Value};
ghost use Rattle.attribute_scalars.specs.Lists.{if_any};
ghost use Rattle.attribute_scalars.specs.Walks.{is_in};
ghost use Rattle.project_meaning.specs.Completing.{with_value, without};
ghost use Rattle.project_meaning.specs.Names.{AreInOrder};
ghost use Rattle.project_meaning.specs.Parts.{kept_needs, without_missing_needs};

use crate::names::is_in;
use crate::places::with_attribute;
use attribute_types::{Attribute, Dependency, Value};
use attribute_values::named;
use std::alloc::Global;
use std::mem;
use tree_base::{List, Memory, Text};
use typed_project::Service;

/// Takes a service's dependencies on services that aren't there away; it can do without them.
pub(crate) fn drop_missing(
    alloc: Global,
    keys: &[Text],
    service: &mut Service,
) -> Result<(), Memory>
    requires { AreInOrder keys.now }
    ensures { OnOk result (service.new ≡ without_missing_needs keys.now service.old) }
{
    let needs = kept_needs(alloc, keys, service)?;
    let attributes = mem::replace(&mut service.attributes, List::new(alloc));
    service.attributes = with_needs(alloc, without_needs(attributes), needs)?;
    Ok(())
}

/// What a service needs of what is there, in its order.
fn kept_needs(alloc: Global, keys: &[Text], service: &Service) -> Result<List<Dependency>, Memory>
    requires { AreInOrder keys.now }
    ensures { IfOk result (λ needs. needs ≡ kept_needs keys.now service.now) }
{
    match service.depends_on() {
        Some(list) => kept_of(alloc, keys, list.as_slice()),
        None => Ok(List::new(alloc)),
    }
}

fn kept_of(alloc: Global, keys: &[Text], list: &[Dependency]) -> Result<List<Dependency>, Memory>
    requires { AreInOrder keys.now }
    ensures { IfOk result (λ needs. needs ≡ filter (λ need. is_in keys.now need.key) list.now) }
{
    let mut needs = List::new(alloc);
    for need in list {
        put_kept(alloc, keys, need, &mut needs)?;
    }
    Ok(needs)
}

/// Puts a need last, where what is needed is there.
fn put_kept(
    alloc: Global,
    keys: &[Text],
    need: &Dependency,
    needs: &mut List<Dependency>,
) -> Result<(), Memory>
    requires { AreInOrder keys.now }
    ensures { OnOk result (needs.new
        ≡ needs.old ++ filter (λ need. is_in keys.now need.key) (need.now ∷ [])) }
{
    if is_in(keys, &need.key) {
        needs.push(copied(alloc, need)?)
    } else {
        Ok(())
    }
}

fn copied(alloc: Global, need: &Dependency) -> Result<Dependency, Memory>
    ensures { IfOk result (λ copy. copy ≡ need.now) }
{
    Ok(Dependency {
        key: need.key.copy(alloc)?,
        condition: need.condition,
        required: need.required,
        restart: need.restart,
    })
}

/// Attributes without what is needed. No memory.
fn without_needs(attributes: List<Attribute>) -> List<Attribute>
    ensures { result ≡ without (codes "depends_on") attributes }
{
    let mut items = attributes.into_vec();
    items.retain(|attribute| !(attribute.name.as_str() == "depends_on"));
    List::from_vec(items)
}

/// Attributes with what is needed, where something is.
fn with_needs(
    alloc: Global,
    attributes: List<Attribute>,
    needs: List<Dependency>,
) -> Result<List<Attribute>, Memory>
    ensures { IfOk result (λ all. all ≡ with_value (codes "depends_on")
        (option_map Value.Dependencies (if_any needs)) attributes) }
{
    if needs.is_empty() {
        drop(needs);
        return Ok(attributes);
    }
    let attribute = named(alloc, "depends_on", Value::Dependencies(needs))?;
    with_attribute(attributes, attribute)
}
