ghost use Rattle.std.specs.Prelude.{◌≡◌, ◌<◌, [], ◌∷◌, Some, MatchOption, length};
ghost use Rattle.std.specs.Prelude.{slice_get, slice_set};
ghost use Rattle.engine_types.specs.declared.ContainerRow.{ContainerRow};
ghost use Rattle.run_model.specs.EngineRules.{Drifts, IsSound};
ghost use Rattle.memory_engine.specs.Keeping.{HasOwnIds};
ghost use Rattle.memory_engine.specs.Serving.{with_container};
ghost use Rattle.memory_engine.specs.Ticking.{changed_report, changed_row, later, ticked, ticked_by};
ghost use Rattle.memory_engine.specs.Ticking.{is_running as is_running_state};

use crate::rows;
use crate::script::{Change, Tick};
use crate::state::MemoryEngine;
use engine_types::{ContainerState, Containers, Engine, Report};
use tree_base::{List, Text};

impl MemoryEngine {
    /// Applies the first tick of the script, if there is one, and uses it up. A tick for a container that
    /// isn't there or doesn't run changes nothing. No memory.
    pub fn tick(&mut self)
        ensures engine { self.new.engine ≡ ticked self.old.engine self.old.script }
        ensures script { self.new.script ≡ later self.old.script }
        ensures drifts { Drifts self.old.engine self.new.engine }
        ensures sound { IsSound self.new.engine }
        ensures faults { self.new.faults ≡ self.old.faults }
        ensures made { self.new.made ≡ self.old.made }
        ensures catalogue { self.new.catalogue ≡ self.old.catalogue }
    {
        if let Some(tick) = take_first(&mut self.script) {
            apply(&mut self.engine, tick);
        }
    }

    /// Lets the container with an id change by itself, where there is one and it runs. No memory.
    pub fn change(&mut self, id: &Text, change: Change)
        ensures engine { self.new.engine
            ≡ with_container self.old.engine id.now (changed_row change) }
        ensures drifts { Drifts self.old.engine self.new.engine }
        ensures sound { IsSound self.new.engine }
        ensures script { self.new.script ≡ self.old.script }
        ensures faults { self.new.faults ≡ self.old.faults }
        ensures made { self.new.made ≡ self.old.made }
        ensures catalogue { self.new.catalogue ≡ self.old.catalogue }
    {
        change_of(&mut self.engine, id, change);
    }
}

/// Changes the container with an id, where it runs.
fn change_of(engine: &mut Engine, id: &Text, change: Change)
    requires { HasOwnIds engine.old.containers }
    ensures { engine.new ≡ with_container engine.old id.now (changed_row change) }
{
    if let Some(at) = rows::place_of_id(engine.containers.as_slice(), id) {
        change_at(&mut engine.containers, at, change);
    }
}

/// Applies a tick.
fn apply(engine: &mut Engine, tick: Tick)
    ensures { engine.new ≡ ticked_by engine.old tick }
{
    let Tick { container, change } = tick;
    if let Some(at) = rows::place_of_name(engine.containers.as_slice(), &container) {
        change_at(&mut engine.containers, at, change);
    }
}

/// Changes the container at a place, where it runs.
fn change_at(rows: &mut Containers, at: usize, change: Change)
    requires { at < length rows.old }
    ensures { (row : ContainerRow) → slice_get rows.old at ≡ Some row
        → rows.new ≡ slice_set rows.old at (changed_row change row) }
{
    let report = rows.as_slice()[at].report;
    if is_running(report.state) {
        rows.set_report(at, changed(change, report));
    }
}

/// Whether a container runs.
fn is_running(state: ContainerState) -> bool
    ensures { result ≡ is_running_state state }
{
    match state {
        ContainerState::Running => true,
        _ => false,
    }
}

/// A report after a change.
fn changed(change: Change, report: Report) -> Report
    ensures { result ≡ changed_report change report }
{
    match change {
        Change::Exit(exit_code) => Report {
            state: ContainerState::Exited,
            exit_code,
            health: report.health,
        },
        Change::Health(health) => Report {
            state: report.state,
            exit_code: report.exit_code,
            health,
        },
    }
}

/// Takes the first tick out.
fn take_first(script: &mut List<Tick>) -> Option<Tick>
    ensures { MatchOption result ((script.old ≡ []) × (script.new ≡ []))
        (λ tick. script.old ≡ tick ∷ script.new) }
{
    if script.is_empty() {
        return None;
    }
    Some(script.remove(0))
}
