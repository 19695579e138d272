ghost use Rattle.std.specs.Prelude.{◌≡◌, ◌∷◌, [], IfOk, OnOk, Some, codes, map};
ghost use Rattle.attribute_types.specs.declared.attribute.Value.{Value};
ghost use Rattle.project_meaning.specs.Completing.{default_key, says_networks, settled, with_value};
ghost use Rattle.project_meaning.specs.Names.{AreInOrder};
ghost use Rattle.project_meaning.specs.Parts.{with_default_use};

use crate::keys::DEFAULT_KEY;
use crate::needs::drop_missing;
use crate::places::with_attribute;
use attribute_types::{Attribute, NetworkUse, Value, networks_named, text_named};
use attribute_values::named;
use std::alloc::Global;
use std::mem;
use tree_base::{List, Memory, Text};
use typed_project::Service;

/// Settles each service as a part of its project, where these are the keys of all services.
pub(crate) fn settle_all(
    alloc: Global,
    keys: &[Text],
    services: &mut Vec<Service>,
) -> Result<(), Memory>
    requires { AreInOrder keys.now }
    ensures { OnOk result (services.new.items ≡ map (settled keys.now) services.old.items) }
{
    for service in services.iter_mut() {
        settle(alloc, keys, service)?;
    }
    Ok(())
}

/// Settles a service: dependencies on services that aren't there go, and it joins the default network where it says nothing
/// of networks.
fn settle(alloc: Global, keys: &[Text], service: &mut Service) -> Result<(), Memory>
    requires { AreInOrder keys.now }
    ensures { OnOk result (service.new ≡ settled keys.now service.old) }
{
    drop_missing(alloc, keys, service)?;
    join_default(alloc, service)
}

/// Joins the default network, where nothing is said of networks.
fn join_default(alloc: Global, service: &mut Service) -> Result<(), Memory>
    ensures { OnOk result (service.new ≡ with_default_use service.old) }
{
    if says_networks(service.attributes.as_slice()) {
        return Ok(());
    }
    let attributes = mem::replace(&mut service.attributes, List::new(alloc));
    service.attributes = with_default(alloc, attributes)?;
    Ok(())
}

/// Whether something is said of networks.
fn says_networks(attributes: &[Attribute]) -> bool
    ensures { result ≡ says_networks attributes.now }
{
    networks_named(attributes, "networks").is_some()
        || text_named(attributes, "network_mode").is_some()
}

/// Attributes with the default network.
fn with_default(alloc: Global, attributes: List<Attribute>) -> Result<List<Attribute>, Memory>
    ensures { IfOk result (λ all. all ≡ with_value (codes "networks")
        (Some (Value.Networks (record { key = default_key; aliases = [] } ∷ []))) attributes) }
{
    let joined = default_joined(alloc)?;
    let attribute = named(alloc, "networks", Value::Networks(joined))?;
    with_attribute(attributes, attribute)
}

fn default_joined(alloc: Global) -> Result<List<NetworkUse>, Memory>
    ensures { IfOk result (λ joined. joined ≡ record { key = default_key; aliases = [] } ∷ []) }
{
    let mut joined = List::new(alloc);
    joined.push(NetworkUse {
        key: Text::from_str(alloc, DEFAULT_KEY)?,
        aliases: List::new(alloc),
    })?;
    Ok(joined)
}
