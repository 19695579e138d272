ghost use Rattle.std.specs.Prelude.{◌≡◌, ◌||◌, ◌&&◌, List, ℕ, IfOk, OnOk};
ghost use Rattle.std.specs.Str.{bytes_eq};
ghost use Rattle.indexmap.specs.IndexSet.{IndexSet};
ghost use Rattle.attribute_scalars.specs.Walks.{is_in};
ghost use Rattle.declared_slots.specs.Goals.{asks_health, completions_of, goal_of, has_slots, is_awaited, is_none_test, waits_for_completion};

use crate::counts::scale_of;
use crate::waits::dependencies_of;
use attribute_types::{Dependency, DependencyCondition, HealthCheck};
use compose_words::Scale;
use engine_types::Condition;
use indexmap::IndexSet;
use std::alloc::Global;
use tree_base::{Memory, Text};
use typed_project::Service;

/// The keys of the services whose completion some slot waits for. Memory where there is no memory for them.
pub fn awaited(
    alloc: Global,
    scales: &[Scale],
    services: &[Service],
) -> Result<IndexSet<Text>, Memory>
    ensures { IfOk result (λ keys. (key : List ℕ)
        → is_in keys.keys key ≡ is_awaited scales.now services.now key) }
{
    let mut keys = IndexSet::new(alloc);
    for service in services {
        if scale_of(scales, service) != 0 {
            put_completions(alloc, service, &mut keys)?;
        }
    }
    Ok(keys)
}

fn put_completions(
    alloc: Global,
    service: &Service,
    keys: &mut IndexSet<Text>,
) -> Result<(), Memory>
    ensures { OnOk result ((key : List ℕ)
        → is_in keys.new.keys key ≡ (is_in keys.old.keys key || is_in (completions_of service.now) key)) }
{
    let dependencies = dependencies_of(service);
    for dependency in dependencies {
        put_completion(alloc, dependency, keys)?;
    }
    Ok(())
}

/// Puts the key of a dependency last, where its completion is waited for.
fn put_completion(
    alloc: Global,
    dependency: &Dependency,
    keys: &mut IndexSet<Text>,
) -> Result<(), Memory>
    ensures { OnOk result ((key : List ℕ) → is_in keys.new.keys key
        ≡ (is_in keys.old.keys key || (waits_for_completion dependency.now && bytes_eq key dependency.now.key))) }
{
    match dependency.condition {
        DependencyCondition::Completed => {
            keys.insert(dependency.key.copy(alloc)?)
                .map_err(|_| Memory)?;
            Ok(())
        }
        _ => Ok(()),
    }
}

/// What is asked of a service's slots in the end, where some slot waits for its completion, or none does. No memory.
pub fn goal(awaited: bool, service: &Service) -> Condition
    ensures { result ≡ goal_of awaited service.now }
{
    match service.healthcheck() {
        Some(check) if asks_health(check) => Condition::Healthy,
        _ if awaited => Condition::Completed,
        _ => Condition::Running,
    }
}

/// Whether a health check isn't `NONE`.
fn asks_health(check: &HealthCheck) -> bool
    ensures { result ≡ asks_health check.now }
{
    match &check.test {
        Some(test) => match test.get(0) {
            Some(word) => word.as_str() != "NONE",
            None => true,
        },
        None => true,
    }
}
