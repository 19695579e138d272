ghost use Rattle.std.specs.Prelude.{◌≡◌, ◌++◌, IfOk, codes};
ghost use Rattle.engine_types.specs.declared.ActionKind.{ActionKind};
ghost use Rattle.run_model.specs.Ending.{slot_name};
ghost use Rattle.run_model.specs.Lines.{attached_network, container_name, declared_network, declared_volume, done_words, line};
ghost use Rattle.run_model.specs.Plans.{network_name};
ghost use Rattle.run_model.specs.Shown.{shown};
ghost use Rattle.run_requests.specs.Setups.{setup_of};

use engine_types::{ActionKind, Attach, Declared};
use run_lookups::shown;
use run_requests::Run;
use std::alloc::Global;
use tree_base::{Memory, Text};

/// The line of an action that ended well.
pub(crate) fn done_line(alloc: Global, run: &Run<'_>, kind: ActionKind) -> Result<Text, Memory>
    ensures { IfOk result (λ text. text ≡ line (done_words (setup_of run.now) kind)) }
{
    match kind {
        ActionKind::MakeVolume { volume } => volume_line(alloc, run, volume, " created"),
        ActionKind::MakeNetwork { network } => network_line(alloc, run, network, " created"),
        ActionKind::StopContainer { container } => seen_line(alloc, run, container, " stopped"),
        ActionKind::RemoveContainer { container } => seen_line(alloc, run, container, " removed"),
        ActionKind::CreateSlot { slot } => slot_line(alloc, run, slot, " created"),
        ActionKind::ConnectSlot { slot, attach } => connected(alloc, run, slot, attach),
        ActionKind::StopKept { slot } => slot_line(alloc, run, slot, " stopped"),
        ActionKind::StartSlot { slot } => slot_line(alloc, run, slot, " started"),
        ActionKind::RemoveNetwork { network } => network_line(alloc, run, network, " removed"),
        ActionKind::RemoveVolume { volume } => volume_line(alloc, run, volume, " removed"),
    }
}

fn volume_line(alloc: Global, run: &Run<'_>, volume: u32, done: &str) -> Result<Text, Memory>
    ensures { IfOk result (λ text.
        text ≡ line (codes "volume " ++ declared_volume (setup_of run.now) volume ++ done.now)) }
{
    said(alloc, "volume ", volume_name(run, volume), done)
}

fn network_line(alloc: Global, run: &Run<'_>, network: u32, done: &str) -> Result<Text, Memory>
    ensures { IfOk result (λ text.
        text ≡ line (codes "network " ++ declared_network (setup_of run.now) network ++ done.now)) }
{
    said(alloc, "network ", network_name(run, network), done)
}

/// The line of a container that was seen, under the name that the Engine gave.
fn seen_line(alloc: Global, run: &Run<'_>, container: u64, done: &str) -> Result<Text, Memory>
    ensures { IfOk result (λ text.
        text ≡ line (codes "container " ++ shown (container_name
        (setup_of run.now) container) ++ done.now)) }
{
    let name = shown(alloc, container_name(run, container))?;
    said(alloc, "container ", name.as_str(), done)
}

/// The line of a slot's container.
fn slot_line(alloc: Global, run: &Run<'_>, slot: u32, done: &str) -> Result<Text, Memory>
    ensures { IfOk result (λ text.
        text ≡ line (codes "container " ++ slot_name (setup_of run.now) slot ++ done.now)) }
{
    said(alloc, "container ", slot_name(run, slot), done)
}

/// A line that says of a thing what was done.
fn said(alloc: Global, thing: &str, name: &str, done: &str) -> Result<Text, Memory>
    ensures { IfOk result (λ text. text ≡ line (thing.now ++ name.now ++ done.now)) }
{
    let words = format!(in alloc; "{thing}{name}{done}\n")?;
    Ok(Text::from_string(words))
}

fn connected(alloc: Global, run: &Run<'_>, slot: u32, attach: u32) -> Result<Text, Memory>
    ensures { IfOk result (λ text.
        text ≡ line (done_words (setup_of run.now) (ActionKind.ConnectSlot slot attach))) }
{
    let container = slot_name(run, slot);
    let network = attached_network(run, slot, attach);
    let words = format!(in alloc; "container {container} connected to {network}\n")?;
    Ok(Text::from_string(words))
}

fn container_name<'a>(run: &Run<'a>, container: u64) -> &'a str
    ensures { result.now ≡ container_name (setup_of run.now) container }
{
    match run.seen.containers.get(container as usize) {
        Some(row) => row.name.as_str(),
        None => "",
    }
}

/// The name of a slot's container.
pub(crate) fn slot_name<'a>(run: &Run<'a>, slot: u32) -> &'a str
    ensures { result.now ≡ slot_name (setup_of run.now) slot }
{
    match run.declared.slots.get(slot as usize) {
        Some(slot) => slot.name.as_str(),
        None => "",
    }
}

fn network_name<'a>(run: &Run<'a>, network: u32) -> &'a str
    ensures { result.now ≡ declared_network (setup_of run.now) network }
{
    match run.declared.networks.get(network as usize) {
        Some(network) => network.name.as_str(),
        None => "",
    }
}

fn volume_name<'a>(run: &Run<'a>, volume: u32) -> &'a str
    ensures { result.now ≡ declared_volume (setup_of run.now) volume }
{
    match run.declared.volumes.get(volume as usize) {
        Some(volume) => volume.name.as_str(),
        None => "",
    }
}

/// The name of the network that a slot's attach joins.
fn attached_network<'a>(run: &Run<'a>, slot: u32, attach: u32) -> &'a str
    ensures { result.now ≡ attached_network (setup_of run.now) slot attach }
{
    match run.declared.slots.get(slot as usize) {
        Some(slot) => match slot.attach.get(attach as usize) {
            Some(attach) => joined_network(run.declared, attach),
            None => "",
        },
        None => "",
    }
}

fn joined_network<'a>(declared: &'a Declared, attach: &Attach) -> &'a str
    ensures { result.now ≡ network_name declared.now attach.now }
{
    match declared.networks.get(attach.network as usize) {
        Some(network) => network.name.as_str(),
        None => "",
    }
}
