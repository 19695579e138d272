ghost use Rattle.std.specs.Prelude.{◌≡◌, ◌++◌, IfOk, OnOk, filter, find, flat_map, map};
ghost use Rattle.std.specs.Option.{option_copied, option_to_list};
ghost use Rattle.std.specs.Str.{bytes_eq};
ghost use Rattle.container_specs.specs.Lists.{each_once};
ghost use Rattle.container_specs.specs.Networks.{aliases_on, endpoints_of, first_network, joined_as, joined_networks, network_mode_of, network_name, networks_by_name};

use crate::lists::{each_once, items_of};
use attribute_types::NetworkUse;
use engine_types::Endpoint;
use std::alloc::Global;
use tree_base::{List, Memory, Text, TryCopy};
use typed_project::{Network, Project, Service};

/// A network that a service joins, by its name, with the service's aliases there.
#[derive(Drop)]
pub struct JoinedNetwork {
    pub name: Text,
    pub aliases: List<Text>,
}

/// The networks of a service in byte order of their names, each once, with its aliases there in byte order: its key, and what is said at
/// each of its keys of that name. A network that the project doesn't have isn't there.
pub fn networks_by_name(
    alloc: Global,
    project: &Project,
    service: &Service,
) -> Result<List<JoinedNetwork>, Memory>
    ensures { IfOk result (λ networks. networks ≡ networks_by_name project.now service.now) }
{
    let joined = joined_networks(alloc, project, items_of(service.networks()))?;
    let names = names_of(alloc, joined.as_slice())?;
    let names = each_once(alloc, names.as_slice())?;
    under_names(alloc, service, joined.as_slice(), names.as_slice())
}

/// The networks that a service joins by their keys, each by its name.
fn joined_networks(
    alloc: Global,
    project: &Project,
    uses: &[NetworkUse],
) -> Result<List<JoinedNetwork>, Memory>
    ensures { IfOk result (λ networks. networks ≡
        flat_map (λ joined. option_to_list (joined_as project.now joined)) uses.now) }
{
    let mut networks = List::new(alloc);
    for joined in uses {
        put_joined(alloc, project, joined, &mut networks)?;
    }
    Ok(networks)
}

fn put_joined(
    alloc: Global,
    project: &Project,
    joined: &NetworkUse,
    networks: &mut List<JoinedNetwork>,
) -> Result<(), Memory>
    ensures { OnOk result (networks.new ≡
        networks.old ++ option_to_list (joined_as project.now joined.now)) }
{
    match network_name(project, &joined.key) {
        Some(name) => networks.push(JoinedNetwork {
            name: name.copy(alloc)?,
            aliases: joined.aliases.copy(alloc)?,
        }),
        None => Ok(()),
    }
}

/// The name of the network with a key, where the project has it. No memory.
fn network_name<'p>(project: &'p Project, key: &Text) -> Option<&'p Text>
    ensures { option_copied result ≡ network_name project.now key.now }
{
    network_with(project.networks.as_slice(), key)?.name()
}

fn network_with<'p>(networks: &'p [Network], key: &Text) -> Option<&'p Network>
    ensures { option_copied result ≡ find (λ network. bytes_eq network.key key.now) networks.now }
{
    networks.iter().find(|network| network.key == *key)
}

fn names_of(alloc: Global, networks: &[JoinedNetwork]) -> Result<List<Text>, Memory>
    ensures { IfOk result (λ names. names ≡ map (λ network. network.name) networks.now) }
{
    let mut names = List::new(alloc);
    for network in networks {
        names.push(network.name.copy(alloc)?)?;
    }
    Ok(names)
}

/// The networks of some names.
fn under_names(
    alloc: Global,
    service: &Service,
    joined: &[JoinedNetwork],
    names: &[Text],
) -> Result<List<JoinedNetwork>, Memory>
    ensures { IfOk result (λ networks. networks ≡
        map (λ name. record { name = name; aliases = aliases_on service.now joined.now name }) names.now) }
{
    let mut networks = List::new(alloc);
    for name in names {
        networks.push(JoinedNetwork {
            name: name.copy(alloc)?,
            aliases: aliases_on(alloc, service, joined, name)?,
        })?;
    }
    Ok(networks)
}

/// The aliases of a service on the network of a name.
fn aliases_on(
    alloc: Global,
    service: &Service,
    joined: &[JoinedNetwork],
    name: &Text,
) -> Result<List<Text>, Memory>
    ensures { IfOk result (λ aliases. aliases ≡ aliases_on service.now joined.now name.now) }
{
    let mut aliases = List::new(alloc);
    aliases.push(service.key.copy(alloc)?)?;
    put_aliases(alloc, joined, name, &mut aliases)?;
    each_once(alloc, aliases.as_slice())
}

fn put_aliases(
    alloc: Global,
    joined: &[JoinedNetwork],
    name: &Text,
    aliases: &mut List<Text>,
) -> Result<(), Memory>
    ensures { OnOk result (aliases.new ≡ aliases.old ++ flat_map (λ network. network.aliases)
        (filter (λ network. bytes_eq network.name name.now) joined.now)) }
{
    for network in joined {
        if network.name == *name {
            put_all(alloc, network.aliases.as_slice(), aliases)?;
        }
    }
    Ok(())
}

fn put_all(alloc: Global, texts: &[Text], all: &mut List<Text>) -> Result<(), Memory>
    ensures { OnOk result (all.new ≡ all.old ++ texts.now) }
{
    for text in texts {
        all.push(text.copy(alloc)?)?;
    }
    Ok(())
}

/// The mode: the name of the first network, or else the word of the service.
pub(crate) fn network_mode_of(
    alloc: Global,
    networks: &List<JoinedNetwork>,
    service: &Service,
) -> Result<Option<Text>, Memory>
    ensures { IfOk result (λ mode. mode ≡ network_mode_of networks.now service.now) }
{
    match first_network(networks) {
        Some(network) => Ok(Some(network.name.copy(alloc)?)),
        None => mode_copy(alloc, service.network_mode()),
    }
}

fn mode_copy(alloc: Global, mode: Option<&Text>) -> Result<Option<Text>, Memory>
    ensures { IfOk result (λ copy. copy ≡ option_copied mode.entry) }
{
    match mode {
        Some(mode) => Ok(Some(mode.copy(alloc)?)),
        None => Ok(None),
    }
}

/// The endpoint on the first network.
pub(crate) fn endpoints_of(
    alloc: Global,
    networks: &List<JoinedNetwork>,
) -> Result<Option<List<Endpoint>>, Memory>
    ensures { IfOk result (λ endpoints. endpoints ≡ endpoints_of networks.now) }
{
    match first_network(networks) {
        Some(network) => {
            let mut endpoints = List::new(alloc);
            endpoints.push(endpoint_of(alloc, network)?)?;
            Ok(Some(endpoints))
        }
        None => Ok(None),
    }
}

fn endpoint_of(alloc: Global, network: &JoinedNetwork) -> Result<Endpoint, Memory>
    ensures { IfOk result (λ endpoint. endpoint ≡ record {
      key = network.now.name;
      aliases = network.now.aliases;
    }) }
{
    Ok(Endpoint {
        key: network.name.copy(alloc)?,
        aliases: network.aliases.copy(alloc)?,
    })
}

/// The network that a container is made on. No memory.
fn first_network(networks: &List<JoinedNetwork>) -> Option<&JoinedNetwork>
    ensures { option_copied result ≡ first_network networks.now }
{
    match networks.as_slice() {
        [first, ..] => Some(first),
        [] => None,
    }
}
