ghost use Rattle.std.specs.Prelude.{◌≡◌, ◌++◌, IfOk, OnOk, filter, map};
ghost use Rattle.typed_project.specs.Projects.{IsInOrder};
ghost use Rattle.service_graph.specs.Cycles.{dependents, needs};

use std::alloc::Global;
use tree_base::{List, Memory, Text};
use typed_project::{Project, Service};

/// The services that need one, by their keys in byte order. Memory where there is no memory for them.
pub fn dependents(alloc: Global, project: &Project, service: &Text) -> Result<List<Text>, Memory>
    requires { IsInOrder project.now.services }
    ensures { IfOk result (λ keys. keys ≡ dependents project.now.services service.now) }
{
    let mut keys = List::new(alloc);
    let services = project.services.as_slice();
    for other in services {
        if needs(other, service) {
            keys.push(other.key.copy(alloc)?)?;
        }
    }
    Ok(keys)
}

/// Whether a service needs another one.
fn needs(service: &Service, key: &Text) -> bool
    ensures { result ≡ needs key.now service.now }
{
    match service.depends_on() {
        Some(list) => list
            .as_slice()
            .iter()
            .any(|need| need.key.as_str() == key.as_str()),
        None => false,
    }
}
