ghost use Rattle.std.specs.Prelude.{◌≡◌, IfOk, OnErr, OnOk, not, filter};
ghost use Rattle.std.specs.Str.{bytes_eq};
ghost use Rattle.memory_engine.specs.Ids.{id_text};
ghost use Rattle.memory_engine.specs.Keeping.{HasOwnIds};
ghost use Rattle.memory_engine.specs.Serving.{connected, network_in_use, network_removed};
ghost use Rattle.memory_engine.specs.Serving.{with_network};

use crate::{ids, look_ups, refusals, rows};
use engine_types::{Engine, NetRow, NetworkSpec, Reply};
use std::alloc::Global;
use std::mem;
use tree_base::{List, Memory, Text, TryCopy};

/// All networks.
pub fn list(alloc: Global, engine: &Engine) -> Result<Reply, Memory>
    ensures { IfOk result (λ reply. reply ≡ Reply.Networks engine.now.networks) }
{
    Ok(Reply::Networks(engine.networks.copy(alloc)?))
}

/// Makes a network, under the next id.
pub fn make(alloc: Global, engine: &mut Engine, spec: &NetworkSpec) -> Result<Reply, Memory>
    ensures reply { IfOk result (λ reply. reply ≡ Reply.Made (id_text engine.old.next)) }
    ensures ok { OnOk result (engine.new ≡ with_network engine.old spec.now) }
    ensures err { OnErr result (engine.new ≡ engine.old) }
{
    let next = engine.next.checked_add(1).ok_or(Memory)?;
    let id = ids::numbered_id(alloc, engine.next)?;
    let answer = id.copy(alloc)?;
    let row = NetRow {
        id,
        name: spec.name.copy(alloc)?,
        labels: spec.labels.copy(alloc)?,
    };
    engine.networks.push(row)?;
    engine.next = next;
    Ok(Reply::Made(answer))
}

/// Puts a container on a network.
pub fn connect(
    alloc: Global,
    engine: &mut Engine,
    network: &Text,
    container: &Text,
) -> Result<Reply, Memory>
    requires { HasOwnIds engine.old.containers }
    ensures ok { IfOk result
        (λ reply. connected engine.old network.now container.now ≡ (reply, engine.new)) }
    ensures err { OnErr result (engine.new ≡ engine.old) }
{
    if look_ups::network(engine, network).is_none() {
        return refusals::not_found(alloc);
    }
    let Some(row) = look_ups::container(engine, container) else {
        return refusals::not_found(alloc);
    };
    if look_ups::is_attached(row, network) {
        return refusals::forbidden(alloc);
    }
    let mut networks = row.networks.copy(alloc)?;
    networks.push(network.copy(alloc)?)?;
    rows::set_networks(&mut engine.containers, container, networks);
    Ok(Reply::Done)
}

/// Removes a network that no container is on.
pub fn remove(alloc: Global, engine: &mut Engine, id: &Text) -> Result<Reply, Memory>
    ensures ok { IfOk result (λ reply. network_removed engine.old id.now ≡ (reply, engine.new)) }
    ensures err { OnErr result (engine.new ≡ engine.old) }
{
    if look_ups::network(engine, id).is_none() {
        return refusals::not_found(alloc);
    }
    if is_used(engine, id) {
        return refusals::forbidden(alloc);
    }
    take_out(alloc, &mut engine.networks, id);
    Ok(Reply::Done)
}

fn is_used(engine: &Engine, id: &Text) -> bool
    ensures { result ≡ network_in_use engine.now id.now }
{
    engine
        .containers
        .as_slice()
        .iter()
        .any(|row| look_ups::is_attached(row, id))
}

fn take_out(alloc: Global, networks: &mut List<NetRow>, id: &Text)
    ensures { networks.new ≡ filter (λ row. not (bytes_eq row.id id.now)) networks.old }
{
    let mut items = mem::replace(networks, List::new(alloc)).into_vec();
    items.retain(|row| !(row.id == *id));
    *networks = List::from_vec(items);
}
