ghost use Rattle.std.specs.Prelude.{◌≡◌, ◌++◌, IfOk, OnOk, position};
ghost use Rattle.std.specs.Str.{bytes_eq};
ghost use Rattle.service_attaches.specs.Attaches.{attach_of, attaches_of};

use container_specs::{JoinedNetwork, networks_by_name};
use engine_types::{Attach, NetworkSpec};
use std::alloc::Global;
use tree_base::{List, Memory, TryCopy};
use typed_project::{Project, Service};

/// The networks that a service's containers are on, by their places among these, in byte order of their names, each with the
/// service's key and the names that it has there. One that isn't among these is left out. Memory where there is no memory for it.
pub fn attaches(
    alloc: Global,
    networks: &[NetworkSpec],
    project: &Project,
    service: &Service,
) -> Result<List<Attach>, Memory>
    ensures { IfOk result (λ attaches.
        attaches ≡ attaches_of networks.now project.now service.now) }
{
    let joined = networks_by_name(alloc, project, service)?;
    let mut attaches = List::new(alloc);
    for network in joined.as_slice() {
        push_attach(alloc, &mut attaches, networks, network)?;
    }
    Ok(attaches)
}

/// Puts the attach to a network last, where it is among these.
fn push_attach(
    alloc: Global,
    attaches: &mut List<Attach>,
    networks: &[NetworkSpec],
    joined: &JoinedNetwork,
) -> Result<(), Memory>
    ensures { OnOk result (attaches.new ≡ attaches.old ++ attach_of networks.now joined.now) }
{
    match place_of(networks, joined.name.as_str()) {
        Some(place) => {
            let network = number_of(place)?;
            let aliases = joined.aliases.copy(alloc)?;
            attaches.push(Attach { network, aliases })
        }
        None => Ok(()),
    }
}

/// The place of the first network with a name. No memory.
fn place_of(networks: &[NetworkSpec], name: &str) -> Option<usize>
    ensures { result ≡ position (λ network. bytes_eq network.name name.now) networks.now }
{
    networks
        .iter()
        .position(|network| network.name.as_str() == name)
}

/// A place as a number of 32 bits. No memory holds a list with a place past them.
fn number_of(place: usize) -> Result<u32, Memory>
    ensures { IfOk result (λ number. number ≡ place) }
{
    match u32::try_from(place) {
        Ok(number) => Ok(number),
        Err(_) => Err(Memory),
    }
}
