ghost use Rattle.std.specs.Prelude.{◌≡◌, IfOk, OnErr};
ghost use Rattle.run_model.specs.EngineRules.{can_start as can_start_from, has_test as has_health_test, is_started as is_started_state, started_row};
ghost use Rattle.memory_engine.specs.Keeping.{HasOwnIds};
ghost use Rattle.memory_engine.specs.Serving.{inspected, logs_told, started, stopped, removed};

use crate::{look_ups, refusals, rows};
use engine_types::{ContainerRow, ContainerSpec, ContainerState, Engine, Health, Reply, Report};
use run_lookups::is_live;
use std::alloc::Global;
use tree_base::{Memory, Text, TryCopy};

/// The report on a container.
pub fn inspect(alloc: Global, engine: &Engine, id: &Text) -> Result<Reply, Memory>
    requires { HasOwnIds engine.now.containers }
    ensures { IfOk result (λ reply. inspected engine.now id.now ≡ (reply, engine.now)) }
{
    let Some(row) = look_ups::container(engine, id) else {
        return refusals::not_found(alloc);
    };
    Ok(Reply::State(row.report))
}

/// What a container has written.
pub fn logs(alloc: Global, engine: &Engine, id: &Text) -> Result<Reply, Memory>
    requires { HasOwnIds engine.now.containers }
    ensures { IfOk result (λ reply. logs_told engine.now id.now ≡ (reply, engine.now)) }
{
    let Some(row) = look_ups::container(engine, id) else {
        return refusals::not_found(alloc);
    };
    Ok(Reply::Bytes(row.logs.copy(alloc)?))
}

/// Starts a container.
pub fn start(alloc: Global, engine: &mut Engine, id: &Text) -> Result<Reply, Memory>
    requires { HasOwnIds engine.old.containers }
    ensures ok { IfOk result (λ reply. started engine.old id.now ≡ (reply, engine.new)) }
    ensures err { OnErr result (engine.new ≡ engine.old) }
{
    let Some(row) = look_ups::container(engine, id) else {
        return refusals::not_found(alloc);
    };
    let state = row.report.state;
    if is_started(state) {
        return Ok(Reply::Already);
    }
    if !can_start(state) {
        return refusals::conflict(alloc);
    }
    let report = started_report(row);
    rows::set_report(&mut engine.containers, id, report);
    Ok(Reply::Done)
}

/// Stops a container.
pub fn stop(alloc: Global, engine: &mut Engine, id: &Text) -> Result<Reply, Memory>
    requires { HasOwnIds engine.old.containers }
    ensures ok { IfOk result (λ reply. stopped engine.old id.now ≡ (reply, engine.new)) }
    ensures err { OnErr result (engine.new ≡ engine.old) }
{
    let Some(row) = look_ups::container(engine, id) else {
        return refusals::not_found(alloc);
    };
    if !is_live(row.report.state) {
        return Ok(Reply::Already);
    }
    let report = Report {
        state: ContainerState::Exited,
        exit_code: 0,
        health: row.report.health,
    };
    rows::set_report(&mut engine.containers, id, report);
    Ok(Reply::Done)
}

/// Removes a container.
pub fn remove(alloc: Global, engine: &mut Engine, id: &Text) -> Result<Reply, Memory>
    requires { HasOwnIds engine.old.containers }
    ensures ok { IfOk result (λ reply. removed engine.old id.now ≡ (reply, engine.new)) }
    ensures err { OnErr result (engine.new ≡ engine.old) }
{
    let Some(row) = look_ups::container(engine, id) else {
        return refusals::not_found(alloc);
    };
    if is_live(row.report.state) {
        return refusals::conflict(alloc);
    }
    rows::take_out(&mut engine.containers, id);
    Ok(Reply::Done)
}

/// The report of a container after a start.
fn started_report(row: &ContainerRow) -> Report
    ensures { result ≡ (started_row row.now).report }
{
    let exit_code = row.report.exit_code;
    let health = if has_test(row.spec.get()) {
        Health::Starting
    } else {
        row.report.health
    };
    Report {
        state: ContainerState::Running,
        exit_code,
        health,
    }
}

/// Whether a container has a health test: one whose first item isn't `NONE`.
fn has_test(spec: &ContainerSpec) -> bool
    ensures { result ≡ has_health_test spec.now }
{
    let Some(check) = &spec.healthcheck else {
        return false;
    };
    let Some(test) = &check.test else {
        return false;
    };
    match test.as_slice() {
        [] => false,
        [first, ..] => first.as_str() != "NONE",
    }
}

/// Whether a start begins anything.
fn can_start(state: ContainerState) -> bool
    ensures { result ≡ can_start_from state }
{
    match state {
        ContainerState::Created | ContainerState::Exited => true,
        _ => false,
    }
}

/// Whether a start finds the container started.
fn is_started(state: ContainerState) -> bool
    ensures { result ≡ is_started_state state }
{
    match state {
        ContainerState::Running | ContainerState::Restarting => true,
        _ => false,
    }
}
