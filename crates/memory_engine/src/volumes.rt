ghost use Rattle.std.specs.Prelude.{◌≡◌, ◌==◌, IfOk, OnErr, OnOk, not, filter};
ghost use Rattle.std.specs.List.{before_first};
ghost use Rattle.std.specs.Str.{bytes_eq};
ghost use Rattle.run_model.specs.EngineRules.{binds_volume};
ghost use Rattle.memory_engine.specs.Serving.{volume_in_use, volume_removed, with_volume};

use crate::{look_ups, refusals};
use engine_types::{ContainerRow, Engine, Reply};
use std::alloc::Global;
use std::mem;
use tree_base::{List, Memory, Text, TryCopy};

/// The names of all volumes.
pub fn list(alloc: Global, engine: &Engine) -> Result<Reply, Memory>
    ensures { IfOk result (λ reply. reply ≡ Reply.Volumes engine.now.volumes) }
{
    Ok(Reply::Volumes(engine.volumes.copy(alloc)?))
}

/// Makes a volume, where it isn't there yet.
pub fn make(alloc: Global, engine: &mut Engine, name: &Text) -> Result<Reply, Memory>
    ensures reply { IfOk result (λ reply. reply ≡ Reply.Done) }
    ensures ok { OnOk result (engine.new ≡ with_volume engine.old name.now) }
    ensures err { OnErr result (engine.new ≡ engine.old) }
{
    if look_ups::is_volume(engine, name) {
        return Ok(Reply::Done);
    }
    engine.volumes.push(name.copy(alloc)?)?;
    Ok(Reply::Done)
}

/// Removes a volume that no container binds.
pub fn remove(alloc: Global, engine: &mut Engine, name: &Text) -> Result<Reply, Memory>
    ensures ok { IfOk result (λ reply. volume_removed engine.old name.now ≡ (reply, engine.new)) }
    ensures err { OnErr result (engine.new ≡ engine.old) }
{
    if !look_ups::is_volume(engine, name) {
        return refusals::not_found(alloc);
    }
    if is_used(engine, name) {
        return refusals::conflict(alloc);
    }
    take_out(alloc, &mut engine.volumes, name);
    Ok(Reply::Done)
}

fn is_used(engine: &Engine, name: &Text) -> bool
    ensures { result ≡ volume_in_use engine.now name.now }
{
    engine
        .containers
        .as_slice()
        .iter()
        .any(|row| is_bound(row, name))
}

/// Whether a container binds a volume.
fn is_bound(row: &ContainerRow, name: &Text) -> bool
    ensures { result ≡ binds_volume name.now row.now }
{
    match &row.spec.get().binds {
        Some(binds) => binds.as_slice().iter().any(|bind| is_source(bind, name)),
        None => false,
    }
}

/// Whether a volume is the source of a bind: what stands before its first colon.
fn is_source(bind: &Text, name: &Text) -> bool
    ensures { result ≡ bytes_eq name.now (before_first (λ c. c == 58) bind.now) }
{
    let text = bind.as_str();
    match text.split_once(':') {
        Some((source, _)) => name.as_str() == source,
        None => name.as_str() == text,
    }
}

fn take_out(alloc: Global, volumes: &mut List<Text>, name: &Text)
    ensures { volumes.new ≡ filter (λ other. not (bytes_eq name.now other)) volumes.old }
{
    let mut items = mem::replace(volumes, List::new(alloc)).into_vec();
    items.retain(|other| !(*name == *other));
    *volumes = List::from_vec(items);
}
