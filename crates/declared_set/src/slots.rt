ghost use Rattle.std.specs.Prelude.{◌≡◌, ◌++◌, List, ℕ, IfOk, OnOk, map};
ghost use Rattle.std.specs.List.{range_with_len};
ghost use Rattle.attribute_scalars.specs.Walks.{is_in};
ghost use Rattle.container_specs.specs.Specs.{container_spec};
ghost use Rattle.typed_project.specs.DistinctNames.{HaveDistinctNames, IsKeyed};
ghost use Rattle.declared_set.specs.Ground.{IsGround};
ghost use Rattle.declared_set.specs.Labels.{container_labels};
ghost use Rattle.declared_set.specs.Slots.{common_with, slot_with, slots_in, slots_of};

use crate::labels::container_labels;
use crate::loaded_project::LoadedProject;
use crate::refusing::number_behind;
use container_specs::container_spec;
use declared_slots::{
    Range, Scale, goal, has_build, image, name, needs, policy, scale, stop_seconds,
};
use engine_types::{Attach, Condition, ContainerSpec, Need, NetworkSpec, Slot};
use indexmap::IndexSet;
use service_attaches::attaches;
use service_hashes::{FileDigest, hash, old_hash};
use std::alloc::Global;
use tree_base::{Boxed, List, Memory, Text, TextMap, TryCopy};
use typed_project::Service;

/// What all slots of a service have in common.
#[derive(Drop)]
pub struct Common {
    pub image: Text,
    pub hash: Text,
    pub old_hash: Text,
    pub attach: List<Attach>,
    pub needs: List<Need>,
    pub goal: Condition,
}

/// What the slots of all services are made of.
#[derive(Clone, Copy)]
pub(crate) struct Ground<'g> {
    pub loaded: &'g LoadedProject,
    /// The slots of each service.
    pub ranges: &'g TextMap<Range>,
    /// The networks that the project declares.
    pub networks: &'g [NetworkSpec],
    /// The services whose completion some slot waits for.
    pub awaited: &'g IndexSet<Text>,
    pub digests: &'g [FileDigest],
}

/// The slots of all services.
pub(crate) fn slots_of(
    alloc: Global,
    scales: &[Scale],
    ground: &Ground,
) -> Result<List<Slot>, Memory>
    requires keyed { IsKeyed ground.now.loaded.now.project }
    requires ground { IsGround scales.now ground.now }
    ensures { IfOk result (λ slots. slots
        ≡ slots_of ground.now.loaded.now scales.now ground.now.digests.now) }
{
    let mut slots = List::new(alloc);
    let services = ground.loaded.project.services.as_slice();
    for service in services {
        put_slots_in(alloc, scales, ground, service, &mut slots)?;
    }
    Ok(slots)
}

/// Puts the slots of a service last.
fn put_slots_in(
    alloc: Global,
    scales: &[Scale],
    ground: &Ground,
    service: &Service,
    slots: &mut List<Slot>,
) -> Result<(), Memory>
    requires names { HaveDistinctNames service.now.attributes }
    requires ground { IsGround scales.now ground.now }
    ensures { OnOk result (slots.new ≡ slots.old
        ++ slots_in ground.now.loaded.now scales.now ground.now.digests.now service.now) }
{
    let count = scale(scales, service)?;
    let common = common_of(alloc, ground, service)?;
    put_slots(alloc, ground.loaded, service, &common, count, slots)?;
    Ok(())
}

/// What all slots of a service have in common.
fn common_of(alloc: Global, ground: &Ground, service: &Service) -> Result<Common, Memory>
    requires names { HaveDistinctNames service.now.attributes }
    ensures { IfOk result (λ common. common ≡ common_with
        ground.now.loaded.now.project ground.now.ranges.now ground.now.networks.now
        (is_in ground.now.awaited.now.keys service.now.key) ground.now.digests.now service.now) }
{
    let project = &ground.loaded.project;
    let awaited = ground.awaited.contains(&service.key);
    Ok(Common {
        image: image(alloc, &project.name, service)?,
        hash: hash(alloc, service, ground.digests)?,
        old_hash: old_hash(alloc, service)?,
        attach: attaches(alloc, ground.networks, project, service)?,
        needs: needs(alloc, ground.ranges, service)?,
        goal: goal(awaited, service),
    })
}

/// Puts so many slots of a service last.
fn put_slots(
    alloc: Global,
    loaded: &LoadedProject,
    service: &Service,
    common: &Common,
    count: u32,
    slots: &mut List<Slot>,
) -> Result<(), Memory>
    ensures { OnOk result (slots.new ≡ slots.old
        ++ map (slot_with loaded.now service.now common.now) (range_with_len 1 count)) }
{
    for before in 0..count {
        let number = number_behind(before)?;
        slots.push(slot_with(alloc, loaded, service, common, number)?)?;
    }
    Ok(())
}

/// The slot of a service with a number.
fn slot_with(
    alloc: Global,
    loaded: &LoadedProject,
    service: &Service,
    common: &Common,
    number: u32,
) -> Result<Slot, Memory>
    ensures { IfOk result (λ slot. slot ≡ slot_with loaded.now service.now common.now number) }
{
    let spec = spec_with(alloc, loaded, service, common, number)?;
    let name = name(alloc, &loaded.project.name, service, number)?;
    Ok(Slot {
        service: service.key.copy(alloc)?,
        number,
        name,
        image: common.image.copy(alloc)?,
        policy: policy(service),
        has_build: has_build(service),
        hash: common.hash.copy(alloc)?,
        old_hash: common.old_hash.copy(alloc)?,
        spec,
        attach: copied_attaches(alloc, common.attach.as_slice())?,
        needs: copied_needs(alloc, common.needs.as_slice())?,
        goal: common.goal,
        stop_seconds: stop_seconds(service),
    })
}

/// What the Engine is sent of a service's container with a number.
fn spec_with(
    alloc: Global,
    loaded: &LoadedProject,
    service: &Service,
    common: &Common,
    number: u32,
) -> Result<Boxed<ContainerSpec>, Memory>
    ensures { IfOk result (λ spec. spec ≡ container_spec loaded.now.project service.now
        (container_labels loaded.now service.now common.now.hash number) common.now.image) }
{
    let labels = container_labels(alloc, loaded, service, &common.hash, number)?;
    let image = common.image.as_str();
    let spec = container_spec(alloc, &loaded.project, service, labels, image)?;
    Boxed::new(alloc, spec)
}

fn copied_attaches(alloc: Global, attaches: &[Attach]) -> Result<List<Attach>, Memory>
    ensures { IfOk result (λ copies. copies ≡ attaches.now) }
{
    let mut copies = List::new(alloc);
    for attach in attaches {
        copies.push(copied_attach(alloc, attach)?)?;
    }
    Ok(copies)
}

fn copied_attach(alloc: Global, attach: &Attach) -> Result<Attach, Memory>
    ensures { IfOk result (λ copy. copy ≡ attach.now) }
{
    Ok(Attach {
        network: attach.network,
        aliases: attach.aliases.copy(alloc)?,
    })
}

fn copied_needs(alloc: Global, needs: &[Need]) -> Result<List<Need>, Memory>
    ensures { IfOk result (λ copies. copies ≡ needs.now) }
{
    let mut copies = List::new(alloc);
    copies.extend_from_slice(needs)?;
    Ok(copies)
}
