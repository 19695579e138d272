ghost use Rattle.std.specs.Prelude.{◌≡◌, true};
ghost use Rattle.std.specs.List.{list_all};
ghost use Rattle.plan_core.specs.Order.{HasNoCycle};
ghost use Rattle.run_laws.specs.Orders.{NeedsDependencies};
ghost use Rattle.run_model.specs.Plans.{HasSmallNumbers, IsWhole, is_slot_before};
ghost use Rattle.tree_base.specs.ByteOrder.{is_before};
ghost use Rattle.cases_runs.specs.Whole.{are_served, is_alone, is_ascending, is_attached, is_nil, is_owned, is_served, is_serial, some_at_a_time, stand_alone};

use engine_types::{Declared, DeclaredService, NetworkSpec, Slot, VolumeSpec};
use tree_base::Text;

/// Whether a declared set is whole and nothing in it waits for anything else, so that one worker can carry it out. No
/// memory.
pub(crate) fn is_serial(declared: &Declared) -> bool
    ensures whole { result ≡ true → IsWhole declared.now }
    ensures small { result ≡ true → HasSmallNumbers declared.now }
    ensures acyclic { result ≡ true → HasNoCycle declared.now }
    ensures needs { result ≡ true → NeedsDependencies declared.now }
{
    passes(declared)
}

fn passes(declared: &Declared) -> bool
    ensures { result ≡ is_serial declared.now }
{
    let slots = declared.slots.as_slice();
    let services = declared.services.as_slice();
    let networks = declared.networks.as_slice();
    slots_ascend(slots)
        && services_ascend(services)
        && networks_ascend(networks)
        && volumes_ascend(declared.volumes.as_slice())
        && are_served(services, networks, slots)
        && stand_alone(services)
}

fn services_ascend(services: &[DeclaredService]) -> bool
    ensures { result ≡ is_ascending
        (λ service other. is_before service.key other.key) services.now }
{
    match services {
        [] => true,
        [first, later @ ..] => are_later_services(first, later) && services_ascend(later),
    }
}

fn are_later_services(service: &DeclaredService, later: &[DeclaredService]) -> bool
    ensures { result ≡ list_all (λ other. is_before service.now.key other.key) later.now }
{
    later.iter().all(|other| service.key < other.key)
}

/// Whether slots are of services that are there, attach to networks that are there, and need no other slot.
fn are_served(services: &[DeclaredService], networks: &[NetworkSpec], slots: &[Slot]) -> bool
    ensures { result ≡ are_served services.now networks.now slots.now }
{
    slots.iter().all(|slot| is_served(services, networks, slot))
}

fn is_served(services: &[DeclaredService], networks: &[NetworkSpec], slot: &Slot) -> bool
    ensures { result ≡ is_served services.now networks.now slot.now }
{
    is_owned(services, &slot.service)
        && is_attached(networks, slot)
        && needs_nothing(slot)
        && u64::from(slot.number) < 4_294_967_296
}

fn is_owned(services: &[DeclaredService], key: &Text) -> bool
    ensures { result ≡ is_owned services.now key.now }
{
    services.iter().any(|service| service.key == *key)
}

/// Whether no service depends on another one, or is replaced no slot at a time.
fn stand_alone(services: &[DeclaredService]) -> bool
    ensures { result ≡ stand_alone services.now }
{
    services.iter().all(is_alone)
}

fn is_alone(service: &DeclaredService) -> bool
    ensures { result ≡ is_alone service.now }
{
    match service.depends_on.as_slice() {
        [] => some_at_a_time(service.roll),
        [_, ..] => false,
    }
}

fn some_at_a_time(roll: Option<u32>) -> bool
    ensures { result ≡ some_at_a_time roll }
{
    match roll {
        Some(count) => count != 0,
        None => true,
    }
}

fn slots_ascend(slots: &[Slot]) -> bool
    ensures { result ≡ is_ascending is_slot_before slots.now }
{
    match slots {
        [] => true,
        [first, later @ ..] => are_after(first, later) && slots_ascend(later),
    }
}

fn are_after(slot: &Slot, later: &[Slot]) -> bool
    ensures { result ≡ list_all (is_slot_before slot.now) later.now }
{
    later.iter().all(|other| is_slot_before(slot, other))
}

/// Whether a slot stands before another one: by service, then by number.
fn is_slot_before(slot: &Slot, other: &Slot) -> bool
    ensures { result ≡ is_slot_before slot.now other.now }
{
    slot.service < other.service || (slot.service == other.service && slot.number < other.number)
}

fn networks_ascend(networks: &[NetworkSpec]) -> bool
    ensures { result ≡ is_ascending
        (λ network other. is_before network.name other.name) networks.now }
{
    match networks {
        [] => true,
        [first, later @ ..] => are_later_networks(first, later) && networks_ascend(later),
    }
}

fn are_later_networks(network: &NetworkSpec, later: &[NetworkSpec]) -> bool
    ensures { result ≡ list_all (λ other. is_before network.now.name other.name) later.now }
{
    later.iter().all(|other| network.name < other.name)
}

fn volumes_ascend(volumes: &[VolumeSpec]) -> bool
    ensures { result ≡ is_ascending (λ volume other. is_before volume.name other.name) volumes.now }
{
    match volumes {
        [] => true,
        [first, later @ ..] => are_later_volumes(first, later) && volumes_ascend(later),
    }
}

fn are_later_volumes(volume: &VolumeSpec, later: &[VolumeSpec]) -> bool
    ensures { result ≡ list_all (λ other. is_before volume.now.name other.name) later.now }
{
    later.iter().all(|other| volume.name < other.name)
}

fn is_attached(networks: &[NetworkSpec], slot: &Slot) -> bool
    ensures { result ≡ is_attached networks.now slot.now }
{
    slot.attach
        .as_slice()
        .iter()
        .all(|attach| (attach.network as usize) < networks.len())
}

fn needs_nothing(slot: &Slot) -> bool
    ensures { result ≡ is_nil slot.now.needs }
{
    match slot.needs.as_slice() {
        [] => true,
        [_, ..] => false,
    }
}
