ghost use Rattle.std.specs.Prelude.{◌≡◌, IfOk, map};
ghost use Rattle.declared_set.specs.Declaring.{service_of};

use declared_slots::{depends_on, roll};
use engine_types::DeclaredService;
use std::alloc::Global;
use tree_base::{List, Memory};
use typed_project::Service;

/// What is declared of services beside their slots.
pub(crate) fn services_of(
    alloc: Global,
    services: &[Service],
) -> Result<List<DeclaredService>, Memory>
    ensures { IfOk result (λ declared. declared ≡ map service_of services.now) }
{
    let mut declared = List::new(alloc);
    for service in services {
        declared.push(service_of(alloc, service)?)?;
    }
    Ok(declared)
}

fn service_of(alloc: Global, service: &Service) -> Result<DeclaredService, Memory>
    ensures { IfOk result (λ declared. declared ≡ service_of service.now) }
{
    let depends_on = depends_on(alloc, service)?;
    Ok(DeclaredService {
        key: service.key.copy(alloc)?,
        depends_on,
        roll: roll(service),
    })
}
