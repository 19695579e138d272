//! What the runs bring up.

ghost use Rattle.std.specs.Prelude.{◌≡◌, [], ◌∷◌, IfOk};
ghost use Rattle.plan_core.specs.Order.{HasNoCycle};
ghost use Rattle.run_laws.specs.Orders.{NeedsDependencies};
ghost use Rattle.run_model.specs.Plans.{HasSmallNumbers, IsWhole};
ghost use Rattle.tests_workers.specs.Alone.{AreFirstTwo, IsAlone, IsOne};

use engine_types::{Condition, ContainerSpec, Declared, DeclaredService, Policy, Slot};
use std::alloc::Global;
use tree_base::{Boxed, List, Memory, Text};

/// A service of two containers on no network, neither of which needs the other.
pub(crate) fn two_of(alloc: Global, service: &str) -> Result<Declared, Memory>
    ensures whole { IfOk result IsWhole }
    ensures small { IfOk result HasSmallNumbers }
    ensures acyclic { IfOk result HasNoCycle }
    ensures needs { IfOk result NeedsDependencies }
{
    let project = Text::from_str(alloc, "shop")?;
    let services = service_of(alloc, service)?;
    let slots = slots_of(alloc, service)?;
    let networks = List::new(alloc);
    let volumes = List::new(alloc);
    Ok(Declared {
        project,
        slots,
        services,
        networks,
        volumes,
    })
}

fn service_of(alloc: Global, service: &str) -> Result<List<DeclaredService>, Memory>
    ensures { IfOk result (IsOne service.now) }
{
    let key = Text::from_str(alloc, service)?;
    let depends_on = List::new(alloc);
    let mut services = List::new(alloc);
    services.push(DeclaredService {
        key,
        depends_on,
        roll: None,
    })?;
    Ok(services)
}

fn slots_of(alloc: Global, service: &str) -> Result<List<Slot>, Memory>
    ensures { IfOk result (AreFirstTwo service.now) }
{
    let mut slots = List::new(alloc);
    let one = slot_of(alloc, service, 1, "shop-web-1")?;
    slots.push(one)?;
    let two = slot_of(alloc, service, 2, "shop-web-2")?;
    slots.push(two)?;
    Ok(slots)
}

fn slot_of(alloc: Global, service: &str, number: u32, name: &str) -> Result<Slot, Memory>
    ensures { IfOk result (IsAlone service.now number) }
{
    let mut spec = ContainerSpec::empty(alloc);
    spec.image = Some(Text::from_str(alloc, "x")?);
    let spec = Boxed::new(alloc, spec)?;
    let key = Text::from_str(alloc, service)?;
    let name = Text::from_str(alloc, name)?;
    let image = Text::from_str(alloc, "x")?;
    let attach = List::new(alloc);
    let needs = List::new(alloc);
    Ok(Slot {
        service: key,
        number,
        name,
        image,
        policy: Policy::Missing,
        has_build: false,
        hash: Text::new(alloc),
        old_hash: Text::new(alloc),
        spec,
        attach,
        needs,
        goal: Condition::Started,
        stop_seconds: 10,
    })
}
