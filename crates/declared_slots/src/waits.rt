ghost use Rattle.std.specs.Prelude.{◌≡◌, ◌++◌, IfOk, OnOk, map};
ghost use Rattle.std.specs.List.{range_with_len};
ghost use Rattle.service_graph.specs.Cycles.{dependencies_of};
ghost use Rattle.declared_slots.specs.Needs.{bounded, condition_of, depends_on, need_count, need_of, needs_each, needs_in, needs_of, needs_on};

use crate::counts::{Range, behind, range_of};
use attribute_types::{Dependency, DependencyCondition};
use engine_types::{Condition, Need};
use std::alloc::Global;
use tree_base::{List, Memory, Text, TextMap};
use typed_project::Service;

/// What each slot of a service waits for, by the places of the needed slots. Memory where there is no memory for it.
pub fn needs(
    alloc: Global,
    ranges: &TextMap<Range>,
    service: &Service,
) -> Result<List<Need>, Memory>
    ensures { IfOk result (λ needs. needs ≡ needs_of ranges.now service.now) }
{
    let mut needs = List::new(alloc);
    let dependencies = dependencies_of(service);
    for dependency in dependencies {
        let range = range_of(ranges, &dependency.key);
        put_needs(dependency, range, &mut needs)?;
    }
    Ok(needs)
}

/// Puts the needs for the slots of one service last.
fn put_needs(dependency: &Dependency, range: Range, needs: &mut List<Need>) -> Result<(), Memory>
    ensures { OnOk result (needs.new ≡ needs.old
        ++ map (need_of dependency.now) (range_with_len range.first range.count)) }
{
    for before in 0..range.count {
        let slot = behind(range.first, before)?;
        needs.push(need_of(dependency, slot))?;
    }
    Ok(())
}

fn need_of(dependency: &Dependency, slot: u32) -> Need
    ensures { result ≡ need_of dependency.now slot }
{
    Need {
        slot,
        condition: condition_of(dependency.condition),
        required: dependency.required,
        restart: dependency.restart,
    }
}

fn condition_of(condition: DependencyCondition) -> Condition
    ensures { result ≡ condition_of condition }
{
    match condition {
        DependencyCondition::Started => Condition::Started,
        DependencyCondition::Healthy => Condition::Healthy,
        DependencyCondition::Completed => Condition::Completed,
    }
}

/// How many needs the slots of all services have together; a number of more than 64 bits is the greatest of these. No memory.
pub fn need_count(ranges: &TextMap<Range>, services: &[Service]) -> u64
    ensures { result ≡ need_count ranges.now services.now }
{
    let mut count = 0u64;
    for service in services {
        count = count.saturating_add(needs_in(ranges, service));
    }
    count
}

/// How many needs the slots of a service have together.
fn needs_in(ranges: &TextMap<Range>, service: &Service) -> u64
    ensures { result ≡ bounded (needs_in ranges.now service.now) }
{
    let slots = u64::from(range_of(ranges, &service.key).count);
    slots.saturating_mul(needs_each(ranges, service))
}

/// How many needs each slot of a service has.
fn needs_each(ranges: &TextMap<Range>, service: &Service) -> u64
    ensures { result ≡ bounded (needs_each ranges.now service.now) }
{
    let mut count = 0u64;
    let dependencies = dependencies_of(service);
    for dependency in dependencies {
        let slots = range_of(ranges, &dependency.key).count;
        count = count.saturating_add(u64::from(slots));
    }
    count
}

/// What a service depends on. No memory.
pub(crate) fn dependencies_of(service: &Service) -> &[Dependency]
    ensures { result.now ≡ dependencies_of service.now }
{
    match service.depends_on() {
        Some(list) => list.as_slice(),
        None => &[],
    }
}

/// The keys of the services that one depends on. Memory where there is no memory for them.
pub fn depends_on(alloc: Global, service: &Service) -> Result<List<Text>, Memory>
    ensures { IfOk result (λ keys. keys ≡ depends_on service.now) }
{
    let mut keys = List::new(alloc);
    let dependencies = dependencies_of(service);
    for dependency in dependencies {
        keys.push(dependency.key.copy(alloc)?)?;
    }
    Ok(keys)
}
