ghost use Rattle.std.specs.Prelude.{◌≡◌, IfOk, Some, option_map, slice_get};
ghost use Rattle.engine_types.specs.declared.ActionKind.TheVariants.{ConnectSlot, RemoveNetwork, StartSlot, StopContainer, StopKept};
ghost use Rattle.run_model.specs.Plans.{slot_at};
ghost use Rattle.run_requests.specs.Asking.{connect_by, poll_by, request_by};
ghost use Rattle.run_requests.specs.Setups.{setup_of};

use crate::ids::{network_id, slot_id};
use crate::run::Run;
use crate::told::ToldIds;
use engine_types::{ActionKind, Attach, Declared, Request, Seen};
use std::alloc::Global;
use tree_base::{Memory, TryCopy};

/// The request of an action of this kind, over the ids that were told. None where something that it speaks of isn't
/// there.
pub fn request_of<T: ToldIds>(
    alloc: Global,
    run: &Run<'_>,
    ids: &T,
    kind: ActionKind,
) -> Result<Option<Request>, Memory>
    ensures { IfOk result (λ request.
        request ≡ request_by (setup_of run.now) (T.ids ids.now) kind) }
{
    match kind {
        ActionKind::MakeVolume { volume } => make_volume(alloc, run.declared, volume),
        ActionKind::MakeNetwork { network } => make_network(alloc, run.declared, network),
        ActionKind::StopContainer { container } => stop(alloc, run, ids, container),
        ActionKind::RemoveContainer { container } => remove(alloc, run.seen, container),
        ActionKind::CreateSlot { slot } => create(alloc, run.declared, slot),
        ActionKind::ConnectSlot { slot, attach } => connect_slot(alloc, run, ids, slot, attach),
        ActionKind::StopKept { slot } => stop_kept(alloc, run, ids, slot),
        ActionKind::StartSlot { slot } => start(alloc, run, ids, slot),
        ActionKind::RemoveNetwork { network } => remove_network(alloc, run, ids, network),
        ActionKind::RemoveVolume { volume } => remove_volume(alloc, run.declared, volume),
    }
}

/// The request of a poll of a slot: the Engine is asked for the state of its container. None where it has none.
pub fn poll_of<T: ToldIds>(alloc: Global, ids: &T, slot: u32) -> Result<Option<Request>, Memory>
    ensures { IfOk result (λ request. request ≡ poll_by (T.ids ids.now) slot) }
{
    match slot_id(alloc, ids, slot)? {
        Some(id) => Ok(Some(Request::Inspect {
            id: id.copy(alloc)?,
        })),
        None => Ok(None),
    }
}

fn make_volume(alloc: Global, declared: &Declared, volume: u32) -> Result<Option<Request>, Memory>
    ensures { IfOk result (λ request.
        request ≡ option_map (λ spec. Request.MakeVolume spec)
        (slice_get declared.now.volumes volume)) }
{
    match declared.volumes.get(volume as usize) {
        Some(spec) => Ok(Some(Request::MakeVolume {
            spec: spec.copy(alloc)?,
        })),
        None => Ok(None),
    }
}

fn make_network(alloc: Global, declared: &Declared, network: u32) -> Result<Option<Request>, Memory>
    ensures { IfOk result (λ request.
        request ≡ option_map (λ spec. Request.MakeNetwork spec)
        (slice_get declared.now.networks network)) }
{
    match declared.networks.get(network as usize) {
        Some(spec) => Ok(Some(Request::MakeNetwork {
            spec: spec.copy(alloc)?,
        })),
        None => Ok(None),
    }
}

fn stop<T: ToldIds>(
    alloc: Global,
    run: &Run<'_>,
    ids: &T,
    container: u64,
) -> Result<Option<Request>, Memory>
    ensures { IfOk result (λ request.
        request ≡ request_by (setup_of run.now) (T.ids ids.now) (StopContainer container)) }
{
    let Some(row) = run.seen.containers.get(container as usize) else {
        return Ok(None);
    };
    match ids.stop_seconds(alloc, container)? {
        Some(seconds) => Ok(Some(Request::Stop {
            id: row.id.copy(alloc)?,
            seconds,
        })),
        None => Ok(None),
    }
}

/// The stop of the container that a slot keeps: it waits as long as the slot says.
fn stop_kept<T: ToldIds>(
    alloc: Global,
    run: &Run<'_>,
    ids: &T,
    slot: u32,
) -> Result<Option<Request>, Memory>
    ensures { IfOk result (λ request.
        request ≡ request_by (setup_of run.now) (T.ids ids.now) (StopKept slot)) }
{
    let Some(declared) = run.declared.slots.get(slot as usize) else {
        return Ok(None);
    };
    match ids.kept(alloc, slot)? {
        Some(row) => Ok(Some(Request::Stop {
            id: row.id.copy(alloc)?,
            seconds: declared.stop_seconds,
        })),
        None => Ok(None),
    }
}

fn remove(alloc: Global, seen: &Seen, container: u64) -> Result<Option<Request>, Memory>
    ensures { IfOk result (λ request.
        request ≡ option_map (λ row. Request.Remove row.id)
        (slice_get seen.now.containers container)) }
{
    match seen.containers.get(container as usize) {
        Some(row) => Ok(Some(Request::Remove {
            id: row.id.copy(alloc)?,
        })),
        None => Ok(None),
    }
}

fn create(alloc: Global, declared: &Declared, slot: u32) -> Result<Option<Request>, Memory>
    ensures { IfOk result (λ request.
        request ≡ option_map (λ slot. Request.Create slot.name slot.spec)
        (slot_at declared.now slot)) }
{
    match declared.slots.get(slot as usize) {
        Some(slot) => Ok(Some(Request::Create {
            name: slot.name.copy(alloc)?,
            spec: slot.spec.copy(alloc)?,
        })),
        None => Ok(None),
    }
}

fn connect_slot<T: ToldIds>(
    alloc: Global,
    run: &Run<'_>,
    ids: &T,
    slot: u32,
    attach: u32,
) -> Result<Option<Request>, Memory>
    ensures { IfOk result (λ request.
        request ≡ request_by (setup_of run.now) (T.ids ids.now) (ConnectSlot slot attach)) }
{
    let Some(row) = run.declared.slots.get(slot as usize) else {
        return Ok(None);
    };
    match row.attach.get(attach as usize) {
        Some(attach) => connect(alloc, run, ids, slot, attach),
        None => Ok(None),
    }
}

/// The connect of a slot's container to the network of one of its attaches.
fn connect<T: ToldIds>(
    alloc: Global,
    run: &Run<'_>,
    ids: &T,
    slot: u32,
    attach: &Attach,
) -> Result<Option<Request>, Memory>
    ensures { IfOk result (λ request.
        request ≡ connect_by (setup_of run.now) (T.ids ids.now) slot attach.now) }
{
    let Some(network) = network_id(run, ids, attach.network) else {
        return Ok(None);
    };
    match slot_id(alloc, ids, slot)? {
        Some(container) => Ok(Some(Request::Connect {
            network: network.copy(alloc)?,
            container: container.copy(alloc)?,
            aliases: attach.aliases.copy(alloc)?,
        })),
        None => Ok(None),
    }
}

fn start<T: ToldIds>(
    alloc: Global,
    run: &Run<'_>,
    ids: &T,
    slot: u32,
) -> Result<Option<Request>, Memory>
    ensures { IfOk result (λ request.
        request ≡ request_by (setup_of run.now) (T.ids ids.now) (StartSlot slot)) }
{
    match slot_id(alloc, ids, slot)? {
        Some(id) => Ok(Some(Request::Start {
            id: id.copy(alloc)?,
        })),
        None => Ok(None),
    }
}

fn remove_network<T: ToldIds>(
    alloc: Global,
    run: &Run<'_>,
    ids: &T,
    network: u32,
) -> Result<Option<Request>, Memory>
    ensures { IfOk result (λ request.
        request ≡ request_by (setup_of run.now) (T.ids ids.now) (RemoveNetwork network)) }
{
    match network_id(run, ids, network) {
        Some(id) => Ok(Some(Request::RemoveNetwork {
            id: id.copy(alloc)?,
        })),
        None => Ok(None),
    }
}

fn remove_volume(alloc: Global, declared: &Declared, volume: u32) -> Result<Option<Request>, Memory>
    ensures { IfOk result (λ request.
        request ≡ option_map (λ spec. Request.RemoveVolume spec.name)
        (slice_get declared.now.volumes volume)) }
{
    match declared.volumes.get(volume as usize) {
        Some(spec) => Ok(Some(Request::RemoveVolume {
            name: spec.name.copy(alloc)?,
        })),
        None => Ok(None),
    }
}
