ghost use Rattle.std.specs.Prelude.{◌≡◌, IfOk, unwrap_or, map};
ghost use Rattle.std.specs.Option.{option_copied, option_and_then};
ghost use Rattle.tree_base.specs.ByteOrder.{IsAscending, is_before};
ghost use Rattle.declared_resources.specs.Resources.{any_variables, network_spec, networks_of, volume_spec, volumes_of};

use crate::labels::{declared_labels, label_entries, variables_of};
use attribute_types::Pairs;
use engine_types::{NetworkSpec, VolumeSpec, labels};
use named_items::{Named, by_name};
use std::alloc::Global;
use tree_base::{List, Memory, Text, Var};
use typed_project::{Network, Project, Volume};

/// The networks that a project declares, in byte order of their names; keys with one name are one row, that of the first of them.
/// Memory where there is no memory for it.
pub fn networks(alloc: Global, project: &Project) -> Result<List<NetworkSpec>, Memory>
    ensures rows { IfOk result (λ networks. networks ≡ networks_of project.now) }
    ensures order { IfOk result (λ networks.
        IsAscending (λ network other. is_before network.name other.name) networks) }
{
    let rows = by_name(alloc, project.networks.as_slice())?;
    let specs = network_specs(alloc, &project.name, rows.as_slice())?;
    Ok(specs)
}

/// The volumes that a project declares, in byte order of their names; keys with one name are one row, that of the first of them.
/// Memory where there is no memory for it.
pub fn volumes(alloc: Global, project: &Project) -> Result<List<VolumeSpec>, Memory>
    ensures rows { IfOk result (λ volumes. volumes ≡ volumes_of project.now) }
    ensures order { IfOk result (λ volumes.
        IsAscending (λ volume other. is_before volume.name other.name) volumes) }
{
    let rows = by_name(alloc, project.volumes.as_slice())?;
    let specs = volume_specs(alloc, &project.name, rows.as_slice())?;
    Ok(specs)
}

fn network_specs(
    alloc: Global,
    project: &Text,
    networks: &[&Network],
) -> Result<List<NetworkSpec>, Memory>
    ensures { IfOk result (λ specs.
        specs ≡ map (network_spec project.now) (map (λ network. network.now) networks.now)) }
{
    let mut specs = List::new(alloc);
    for network in networks {
        specs.push(network_spec(alloc, project, network)?)?;
    }
    Ok(specs)
}

fn volume_specs(
    alloc: Global,
    project: &Text,
    volumes: &[&Volume],
) -> Result<List<VolumeSpec>, Memory>
    ensures { IfOk result (λ specs.
        specs ≡ map (volume_spec project.now) (map (λ volume. volume.now) volumes.now)) }
{
    let mut specs = List::new(alloc);
    for volume in volumes {
        specs.push(volume_spec(alloc, project, volume)?)?;
    }
    Ok(specs)
}

/// What the Engine is sent of a network.
fn network_spec(alloc: Global, project: &Text, network: &Network) -> Result<NetworkSpec, Memory>
    ensures { IfOk result (λ spec. spec ≡ network_spec project.now network.now) }
{
    let key = &network.key;
    let labels = declared_labels(alloc, project, labels::NETWORK, key, network.labels())?;
    let options = options_of(alloc, network.driver_opts())?;
    Ok(NetworkSpec {
        labels,
        options,
        driver: copied(alloc, network.driver())?,
        name: network.known_as().copy(alloc)?,
        internal: network.internal(),
        attachable: network.attachable(),
        enable_ipv6: network.enable_ipv6(),
        external: network.external().unwrap_or(false),
    })
}

/// What the Engine is sent of a volume.
fn volume_spec(alloc: Global, project: &Text, volume: &Volume) -> Result<VolumeSpec, Memory>
    ensures { IfOk result (λ spec. spec ≡ volume_spec project.now volume.now) }
{
    let key = &volume.key;
    let labels = declared_labels(alloc, project, labels::VOLUME, key, volume.labels())?;
    let driver_opts = options_of(alloc, volume.driver_opts())?;
    Ok(VolumeSpec {
        labels,
        driver_opts,
        driver: copied(alloc, volume.driver())?,
        name: volume.known_as().copy(alloc)?,
        external: volume.external().unwrap_or(false),
    })
}

/// The options of a driver, None where there is none.
fn options_of(alloc: Global, options: Option<&Pairs>) -> Result<Option<List<Var>>, Memory>
    ensures { IfOk result (λ given. given
        ≡ option_and_then any_variables (option_copied options.entry)) }
{
    match options {
        Some(pairs) => any_variables(alloc, pairs),
        None => Ok(None),
    }
}

/// Pairs that are there as names with their values.
fn any_variables(alloc: Global, pairs: &Pairs) -> Result<Option<List<Var>>, Memory>
    ensures { IfOk result (λ given. given ≡ any_variables pairs.now) }
{
    if pairs.is_empty() {
        return Ok(None);
    }
    let entries = label_entries(alloc, pairs)?;
    let variables = variables_of(alloc, &entries)?;
    Ok(Some(List::from_vec(variables)))
}

/// A copy of a text that is there.
fn copied(alloc: Global, text: Option<&Text>) -> Result<Option<Text>, Memory>
    ensures { IfOk result (λ copy. copy ≡ option_copied text.entry) }
{
    match text {
        Some(text) => Ok(Some(text.copy(alloc)?)),
        None => Ok(None),
    }
}
