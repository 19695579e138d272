//! Under which texts the actions of a plan are found, and under which ones an action finds those that it needs.

ghost use Rattle.std.specs.Prelude.{◌≡◌, ◌++◌, ◌∷◌, ◌==◌, ℕ, [], map, slice_get, IfOk, OnOk};
ghost use Rattle.std.specs.List.{before_first};
ghost use Rattle.std.specs.Option.{option_map_or};
ghost use Rattle.engine_types.specs.declared.ActionKind.TheVariants.{StopContainer};
ghost use Rattle.plan_core.specs.Finding.{actions_under, asked_by_slot, asked_of, bind_sources, dependents_of, joined_name, name_seen, needed_names, network_name_at, service_key_at, service_seen, slot_name_at, texts_of, volume_name_at};
ghost use Rattle.plan_core.specs.Keeping.{services_under};
ghost use Rattle.plan_core.specs.Index.{numbers_under, seen_entries, seen_texts, under_each};
ghost use Rattle.run_model.specs.Plans.{network_name, slot_at};

use crate::kinds::id_at;
use crate::needed::source_of;
use crate::planner::Planner;
use crate::slot_texts::service_named;
use crate::text_index::{TextIndex, push_under};
use engine_types::{ActionKind, Attach, Declared, Need, Seen, Slot};
use run_lookups::network_name;
use std::alloc::Global;
use tree_base::{Memory, Text, item_at};

impl<'a> Planner<'a> {
    /// The places of a plan's actions under the texts under which they are found.
    pub(crate) fn actions_under(
        &self,
        alloc: Global,
        kinds: &[ActionKind],
    ) -> Result<TextIndex<'a>, Memory>
        ensures { IfOk result (λ index. index ≡ actions_under self.now kinds.now) }
    {
        let mut entries = Vec::new(alloc);
        for at in 0..kinds.len() {
            self.push_action(&mut entries, kinds, at)?;
        }
        TextIndex::new(alloc, entries)
    }

    /// Puts a place last, under the texts of the action that stands there.
    fn push_action(
        &self,
        entries: &mut Vec<(&'a str, u64)>,
        kinds: &[ActionKind],
        at: usize,
    ) -> Result<(), Memory>
        ensures { OnOk result (seen_entries entries.new.items
            ≡ seen_entries entries.old.items
            ++ under_each (option_map_or (texts_of self.now) (slice_get kinds.now at) []) at) }
    {
        match item_at(kinds, at) {
            Some(kind) => self.push_texts(entries, *kind, at as u64),
            None => Ok(()),
        }
    }

    /// Puts a place last, under the texts of an action.
    fn push_texts(
        &self,
        entries: &mut Vec<(&'a str, u64)>,
        kind: ActionKind,
        at: u64,
    ) -> Result<(), Memory>
        ensures { OnOk result (seen_entries entries.new.items
            ≡ seen_entries entries.old.items ++ under_each (texts_of self.now kind) at) }
    {
        match kind {
            ActionKind::MakeVolume { volume } => {
                entries.push((volume_name_at(self.declared, volume), at))?;
            }
            ActionKind::MakeNetwork { network } => {
                entries.push((network_name_at(self.declared, network), at))?;
            }
            ActionKind::StopContainer { container } => {
                entries.push((id_at(self.seen.containers.as_slice(), container), at))?;
            }
            ActionKind::RemoveContainer { container } => {
                entries.push((service_seen(self.seen, container), at))?;
                entries.push((self.slot_seen(container), at))?;
                entries.push((name_seen(self.seen, container), at))?;
            }
            ActionKind::CreateSlot { slot }
            | ActionKind::ConnectSlot { slot, .. }
            | ActionKind::StopKept { slot }
            | ActionKind::StartSlot { slot } => {
                entries.push((slot_name_at(self.declared, slot), at))?;
            }
            ActionKind::RemoveNetwork { .. } | ActionKind::RemoveVolume { .. } => (),
        }
        Ok(())
    }
}

impl<'a> Planner<'a> {
    /// The texts under which an action finds those that it needs.
    pub(crate) fn asked_of(&self, alloc: Global, kind: ActionKind) -> Result<Vec<&'a str>, Memory>
        ensures { IfOk result (λ texts. seen_texts texts.items ≡ asked_of self.now kind) }
    {
        let mut texts = Vec::new(alloc);
        self.push_asked(&mut texts, kind)?;
        Ok(texts)
    }

    /// Puts the texts last under which an action finds those that it needs.
    fn push_asked(&self, texts: &mut Vec<&'a str>, kind: ActionKind) -> Result<(), Memory>
        ensures { OnOk result (seen_texts texts.new.items ≡
            seen_texts texts.old.items ++ asked_of self.now kind) }
    {
        match kind {
            ActionKind::StopContainer { container } => self.push_dependents(texts, container)?,
            ActionKind::RemoveContainer { container } => {
                texts.push(id_at(self.seen.containers.as_slice(), container))?;
            }
            ActionKind::CreateSlot { slot } => self.push_asked_by_slot(texts, slot)?,
            ActionKind::ConnectSlot { slot, attach } => {
                texts.push(slot_name_at(self.declared, slot))?;
                texts.push(joined_name(self.declared, slot, attach))?;
            }
            ActionKind::StopKept { slot } => push_needed_slots(texts, self.declared, slot)?,
            ActionKind::StartSlot { slot } => texts.push(slot_name_at(self.declared, slot))?,
            ActionKind::MakeVolume { .. }
            | ActionKind::MakeNetwork { .. }
            | ActionKind::RemoveNetwork { .. }
            | ActionKind::RemoveVolume { .. } => (),
        }
        Ok(())
    }

    /// Puts the services last that depend on the service of a container that is stopped, where the project goes down.
    fn push_dependents(&self, texts: &mut Vec<&'a str>, container: u64) -> Result<(), Memory>
        ensures { OnOk result (seen_texts texts.new.items
            ≡ seen_texts texts.old.items ++ asked_of self.now (StopContainer container)) }
    {
        if self.is_up() {
            return Ok(());
        }
        push_services(texts, self.declared, self.dependents_on(container))
    }

    /// The numbers of the services that depend on the service of the container at a place. No memory.
    fn dependents_on(&self, container: u64) -> &[u64]
        ensures { result.now ≡ numbers_under (dependents_of self.now.declared)
            (service_seen self.now.seen container) }
    {
        self.dependents.find(service_seen(self.seen, container))
    }

    /// Puts the texts last under which the create of a slot's container finds what it needs.
    fn push_asked_by_slot(&self, texts: &mut Vec<&'a str>, slot: u32) -> Result<(), Memory>
        ensures { OnOk result (seen_texts texts.new.items ≡ seen_texts texts.old.items
            ++ option_map_or (asked_by_slot self.now.declared)
            (slot_at self.now.declared slot) []) }
    {
        let Some(row) = self.declared.slots.get(slot as usize) else {
            return Ok(());
        };
        texts.push(self.slot_text(slot))?;
        texts.push(row.name.as_str())?;
        push_network_names(texts, self.declared, row.attach.as_slice())?;
        push_bind_sources(texts, row)
    }
}

/// The numbers of the services, under their keys.
pub(crate) fn services_under<'a>(
    alloc: Global,
    declared: &'a Declared,
) -> Result<TextIndex<'a>, Memory>
    ensures { IfOk result (λ index. index ≡ services_under declared.now) }
{
    let mut entries = Vec::new(alloc);
    for at in 0..declared.services.len() {
        push_service(&mut entries, declared, at)?;
    }
    TextIndex::new(alloc, entries)
}

/// Puts the number of a service last, under its key.
fn push_service<'a>(
    entries: &mut Vec<(&'a str, u64)>,
    declared: &'a Declared,
    at: usize,
) -> Result<(), Memory>
    ensures { OnOk result (seen_entries entries.new.items ≡ seen_entries entries.old.items
        ++ under_each (option_map_or (λ service. service.key ∷ [])
        (slice_get declared.now.services at) []) at) }
{
    match declared.services.get(at) {
        Some(service) => push_under(entries, service.key.as_str(), at as u64),
        None => Ok(()),
    }
}

/// The numbers of the services, under the keys of those that they depend on.
pub(crate) fn dependents_of<'a>(
    alloc: Global,
    declared: &'a Declared,
) -> Result<TextIndex<'a>, Memory>
    ensures { IfOk result (λ index. index ≡ dependents_of declared.now) }
{
    let mut entries = Vec::new(alloc);
    for at in 0..declared.services.len() {
        push_dependent(&mut entries, declared, at)?;
    }
    TextIndex::new(alloc, entries)
}

/// Puts the number of a service last, under the keys of those that it depends on.
fn push_dependent<'a>(
    entries: &mut Vec<(&'a str, u64)>,
    declared: &'a Declared,
    at: usize,
) -> Result<(), Memory>
    ensures { OnOk result (seen_entries entries.new.items ≡ seen_entries entries.old.items
        ++ under_each (option_map_or (λ service. service.depends_on)
        (slice_get declared.now.services at) []) at) }
{
    match declared.services.get(at) {
        Some(service) => push_keys(entries, service.depends_on.as_slice(), at as u64),
        None => Ok(()),
    }
}

/// Puts a number last, under keys.
fn push_keys<'a>(entries: &mut Vec<(&'a str, u64)>, keys: &'a [Text], at: u64) -> Result<(), Memory>
    ensures { OnOk result (seen_entries entries.new.items ≡
        seen_entries entries.old.items ++ under_each keys.now at) }
{
    for key in keys {
        entries.push((key.as_str(), at))?;
    }
    Ok(())
}

/// Puts the keys of services last.
fn push_services<'a>(
    texts: &mut Vec<&'a str>,
    declared: &'a Declared,
    services: &[u64],
) -> Result<(), Memory>
    ensures { OnOk result (seen_texts texts.new.items
        ≡ seen_texts texts.old.items ++ map (service_key_at declared.now) services.now) }
{
    for service in services {
        texts.push(service_key_at(declared, *service))?;
    }
    Ok(())
}

/// Puts the names of the slots last that a slot needs.
fn push_needed_slots<'a>(
    texts: &mut Vec<&'a str>,
    declared: &'a Declared,
    slot: u32,
) -> Result<(), Memory>
    ensures { OnOk result (seen_texts texts.new.items ≡ seen_texts texts.old.items
        ++ option_map_or (needed_names declared.now) (slot_at declared.now slot) []) }
{
    match declared.slots.get(slot as usize) {
        Some(slot) => push_needed(texts, declared, slot.needs.as_slice()),
        None => Ok(()),
    }
}

/// Puts the names of the slots last that are needed.
fn push_needed<'a>(
    texts: &mut Vec<&'a str>,
    declared: &'a Declared,
    needs: &[Need],
) -> Result<(), Memory>
    ensures { OnOk result (seen_texts texts.new.items
        ≡ seen_texts texts.old.items
        ++ map (λ need. slot_name_at declared.now need.slot) needs.now) }
{
    for need in needs {
        texts.push(slot_name_at(declared, need.slot))?;
    }
    Ok(())
}

/// Puts the names of the networks last that are joined.
fn push_network_names<'a>(
    texts: &mut Vec<&'a str>,
    declared: &'a Declared,
    attaches: &[Attach],
) -> Result<(), Memory>
    ensures { OnOk result (seen_texts texts.new.items
        ≡ seen_texts texts.old.items ++ map (network_name declared.now) attaches.now) }
{
    for attach in attaches {
        texts.push(network_name(declared, attach))?;
    }
    Ok(())
}

/// Puts what stands before the first colon of each bind of a slot last.
fn push_bind_sources<'a>(texts: &mut Vec<&'a str>, slot: &'a Slot) -> Result<(), Memory>
    ensures { OnOk result (seen_texts texts.new.items ≡
        seen_texts texts.old.items ++ bind_sources slot.now) }
{
    match &slot.spec.get().binds {
        Some(binds) => push_sources(texts, binds.as_slice()),
        None => Ok(()),
    }
}

/// Puts what stands before the first colon of each bind last.
fn push_sources<'a>(texts: &mut Vec<&'a str>, binds: &'a [Text]) -> Result<(), Memory>
    ensures { OnOk result (seen_texts texts.new.items ≡ seen_texts texts.old.items
        ++ map (before_first (λ (byte : ℕ). byte == 58)) binds.now) }
{
    for bind in binds {
        texts.push(source_of(bind))?;
    }
    Ok(())
}

/// The name of the network that an attach of a slot joins, and the empty text where there is none. No memory.
fn joined_name(declared: &Declared, slot: u32, attach: u32) -> &str
    ensures { result.now ≡ joined_name declared.now slot attach }
{
    let Some(slot) = declared.slots.get(slot as usize) else {
        return "";
    };
    match slot.attach.get(attach as usize) {
        Some(attach) => network_name(declared, attach),
        None => "",
    }
}

/// The service that the labels of the container at a place name, and the empty text past the last. No memory.
fn service_seen(seen: &Seen, container: u64) -> &str
    ensures { result.now ≡ service_seen seen.now container }
{
    match seen.containers.get(container as usize) {
        Some(row) => service_named(&row.labels),
        None => "",
    }
}

/// The name of the container at a place, and the empty text past the last. No memory.
fn name_seen(seen: &Seen, container: u64) -> &str
    ensures { result.now ≡ name_seen seen.now container }
{
    match seen.containers.get(container as usize) {
        Some(row) => row.name.as_str(),
        None => "",
    }
}

/// The name of the volume with a number, and the empty text past the last. No memory.
fn volume_name_at(declared: &Declared, volume: u32) -> &str
    ensures { result.now ≡ volume_name_at declared.now volume }
{
    match declared.volumes.get(volume as usize) {
        Some(volume) => volume.name.as_str(),
        None => "",
    }
}

/// The name of the network with a number, and the empty text past the last. No memory.
fn network_name_at(declared: &Declared, network: u32) -> &str
    ensures { result.now ≡ network_name_at declared.now network }
{
    match declared.networks.get(network as usize) {
        Some(network) => network.name.as_str(),
        None => "",
    }
}

/// The name of the slot with a number, and the empty text past the last. No memory.
fn slot_name_at(declared: &Declared, slot: u32) -> &str
    ensures { result.now ≡ slot_name_at declared.now slot }
{
    match declared.slots.get(slot as usize) {
        Some(slot) => slot.name.as_str(),
        None => "",
    }
}

/// The key of the service with a number, and the empty text past the last. No memory.
fn service_key_at(declared: &Declared, service: u64) -> &str
    ensures { result.now ≡ service_key_at declared.now service }
{
    match declared.services.get(service as usize) {
        Some(service) => service.key.as_str(),
        None => "",
    }
}
