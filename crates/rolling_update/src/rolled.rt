//! Which slots are rolled.

ghost use Rattle.std.specs.Prelude.{◌≡◌, ◌++◌, ◌∷◌, [], false, if◌then◌else◌, IfOk, OnOk, map};
ghost use Rattle.std.specs.Option.{option_map_or};
ghost use Rattle.plan_core.specs.Keeping.{texts_under};
ghost use Rattle.rolling_update.specs.Needs.{IsUpPlan, Scene, is_rolled_at, rolling, stray_services, strays};
ghost use Rattle.run_model.specs.Plans.{is_unstarted, slot_at};
ghost use Rattle.run_model.specs.Rolling.{is_crossed, is_rolled};

use crate::finder::Finder;
use crate::steps::is_started;
use engine_types::Slot;
use plan_core::{TextIndex, texts_under};
use std::alloc::Global;
use tree_base::{List, Memory, Text};

/// For each slot whether it is rolled: its service says how many are replaced at a time and isn't crossed, a live container of
/// it was seen, and it is started.
pub(crate) fn rolled_slots(alloc: Global, finder: &Finder<'_>) -> Result<Vec<bool>, Memory>
    requires { IsUpPlan finder.now.scene.declared finder.now.scene.seen finder.now.actions }
    ensures { IfOk result (λ rolled.
        rolled.items ≡ map (is_rolled (rolling finder.now.scene)) finder.now.scene.declared.slots) }
{
    let services = stray_services(alloc, finder)?;
    let crossed = texts_under(alloc, services.as_slice())?;
    let mut rolled = Vec::new(alloc);
    for at in 0..finder.count() {
        let number = at as u64;
        let started = is_started(finder, number);
        rolled.push(is_rolled(alloc, finder, &crossed, started, number)?)?;
    }
    Ok(rolled)
}

/// The services of the slots of which a container was seen that has another slot's name.
fn stray_services(alloc: Global, finder: &Finder<'_>) -> Result<List<Text>, Memory>
    ensures { IfOk result (λ services. services ≡ stray_services finder.now.scene) }
{
    let mut services = List::new(alloc);
    for at in 0..finder.count() {
        push_stray(alloc, finder, &mut services, at as u64)?;
    }
    Ok(services)
}

/// Puts the service of the slot with a number last, where a container of it was seen that has another slot's name.
fn push_stray(
    alloc: Global,
    finder: &Finder<'_>,
    services: &mut List<Text>,
    number: u64,
) -> Result<(), Memory>
    ensures { OnOk result (services.new ≡ services.old ++ option_map_or
        (λ slot. if strays finder.now.scene slot then slot.service ∷ [] else [])
        (slot_at finder.now.scene.declared number) []) }
{
    if let Some(slot) = finder.slot(number) {
        if finder.strays(alloc, number)? {
            services.push(slot.service.copy(alloc)?)?;
        }
    }
    Ok(())
}

/// Whether the slot with a number is rolled, which is started or isn't.
fn is_rolled(
    alloc: Global,
    finder: &Finder<'_>,
    crossed: &TextIndex<'_>,
    is_started: bool,
    number: u64,
) -> Result<bool, Memory>
    requires crossed { crossed.now ≡ texts_under (stray_services finder.now.scene) }
    requires started { is_started ≡ option_map_or (is_unstarted (rolling finder.now.scene))
        (slot_at finder.now.scene.declared number) false }
    ensures { IfOk result (λ is. is ≡ is_rolled_at finder.now.scene number) }
{
    let Some(slot) = finder.slot(number) else {
        return Ok(false);
    };
    if is_started && finder.roll_of(slot).is_some() && !is_crossed(crossed, slot) {
        return finder.has_live(alloc, number);
    }
    Ok(false)
}

/// Whether a slot's service is crossed. No memory.
fn is_crossed(crossed: &TextIndex<'_>, slot: &Slot) -> bool
    ensures { (scene : Scene) → crossed.now ≡ texts_under (stray_services scene)
        → result ≡ is_crossed (rolling scene) slot.now.service }
{
    match crossed.find(slot.service.as_str()) {
        [] => false,
        [_, ..] => true,
    }
}
