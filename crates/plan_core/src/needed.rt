//! Which actions an action needs to have ended well.

ghost use Rattle.std.specs.Prelude.{◌≡◌, ◌==◌, ◌&&◌, ◌++◌, ◌∷◌, ℕ, [], false, true, filter, if◌then◌else◌, IfOk, OnOk};
ghost use Rattle.std.specs.List.{before_first, list_any};
ghost use Rattle.engine_types.specs.declared.ActionKind.TheVariants.{StopContainer, CreateSlot, ConnectSlot, StopKept, StartSlot};
ghost use Rattle.plan_core.specs.Finding.{actions_under, is_needed_at, is_removal_at, needs_removals, removals_in};
ghost use Rattle.plan_core.specs.Keeping.{depends_by, depends_by_at};
ghost use Rattle.run_model.specs.Labels.{names_service};
ghost use Rattle.run_model.specs.Plans.{Basis, asks_restart, attaches_to, depends_on, is_bound_by, is_in_way, is_needed_by, needed_by};

use crate::kinds::number_of;
use crate::planner::{Planner, copied};
use crate::slot_texts::service_named;
use crate::text_index::{TextIndex, places_found};
use engine_types::{
    ActionKind, ContainerSpec, Declared, DeclaredService, Listed, Need, Pairs, Slot,
};
use run_lookups::{names_service, names_slot};
use std::alloc::Global;
use tree_base::{List, Memory, Text, item_at};

impl Planner<'_> {
    /// The numbers of the actions that an action needs, of actions that are numbered by their places. `removals` are
    /// those of all removals, which are listed once for all that need them.
    pub(crate) fn needed_by(
        &self,
        alloc: Global,
        kinds: &[ActionKind],
        index: &TextIndex<'_>,
        removals: &[u32],
        kind: ActionKind,
    ) -> Result<List<u32>, Memory>
        requires indexed { index.now ≡ actions_under self.now kinds.now }
        requires listed { removals.now ≡ removals_in kinds.now }
        ensures { IfOk result (λ needs. needs ≡ needed_by self.now kinds.now kind) }
    {
        if needs_removals(kind) {
            self.needed_always(alloc, kinds, removals, kind)
        } else {
            self.needed_where_asked(alloc, kinds, index, kind)
        }
    }

    /// The numbers of all removals.
    fn needed_always(
        &self,
        alloc: Global,
        kinds: &[ActionKind],
        removals: &[u32],
        kind: ActionKind,
    ) -> Result<List<u32>, Memory>
        requires listed { removals.now ≡ removals_in kinds.now }
        requires all { needs_removals kind ≡ true }
        ensures { IfOk result (λ needs. needs ≡ needed_by self.now kinds.now kind) }
    {
        copied(alloc, removals)
    }

    /// The numbers of the actions that an action needs, of those that are found under the texts that it asks for.
    fn needed_where_asked(
        &self,
        alloc: Global,
        kinds: &[ActionKind],
        index: &TextIndex<'_>,
        kind: ActionKind,
    ) -> Result<List<u32>, Memory>
        requires indexed { index.now ≡ actions_under self.now kinds.now }
        requires few { needs_removals kind ≡ false }
        ensures { IfOk result (λ needs. needs ≡ needed_by self.now kinds.now kind) }
    {
        let texts = self.asked_of(alloc, kind)?;
        let places = places_found(alloc, index, texts.as_slice())?;
        self.needed_among(alloc, kinds, places.as_slice(), kind)
    }

    /// Those of some places whose actions an action needs.
    fn needed_among(
        &self,
        alloc: Global,
        kinds: &[ActionKind],
        places: &[u64],
        kind: ActionKind,
    ) -> Result<List<u32>, Memory>
        ensures { IfOk result (λ needs.
            needs ≡ filter (is_needed_at self.now kinds.now kind) places.now) }
    {
        let mut needs = List::new(alloc);
        for place in places {
            let at = *place as usize;
            let is_needed = self.is_needed_at(alloc, kinds, kind, at)?;
            push_if(&mut needs, at, is_needed)?;
        }
        Ok(needs)
    }

    /// Whether an action needs the one at a place.
    fn is_needed_at(
        &self,
        alloc: Global,
        kinds: &[ActionKind],
        kind: ActionKind,
        at: usize,
    ) -> Result<bool, Memory>
        ensures { IfOk result (λ needed. needed ≡ is_needed_at self.now kinds.now kind at) }
    {
        match item_at(kinds, at) {
            Some(other) => self.is_needed_by(alloc, kind, *other),
            None => Ok(false),
        }
    }

    /// Whether an action needs another one.
    fn is_needed_by(
        &self,
        alloc: Global,
        kind: ActionKind,
        other: ActionKind,
    ) -> Result<bool, Memory>
        ensures { IfOk result (λ needed. needed ≡ is_needed_by self.now kind other) }
    {
        match kind {
            ActionKind::MakeVolume { .. } | ActionKind::MakeNetwork { .. } => Ok(false),
            ActionKind::StopContainer { container } => Ok(self.stop_needs(container, other)),
            ActionKind::RemoveContainer { container } => {
                Ok(other == ActionKind::StopContainer { container })
            }
            ActionKind::CreateSlot { slot } => self.create_needs(alloc, slot, other),
            ActionKind::ConnectSlot { slot, attach } => Ok(self.connect_needs(slot, attach, other)),
            ActionKind::StopKept { slot } => Ok(self.restart_needs(slot, other)),
            ActionKind::StartSlot { slot } => Ok(start_needs(slot, other)),
            ActionKind::RemoveNetwork { .. } | ActionKind::RemoveVolume { .. } => {
                Ok(matches!(other, ActionKind::RemoveContainer { .. }))
            }
        }
    }

    /// The stop of a container, where the project goes down, needs the removals of the containers whose services
    /// depend on its service.
    fn stop_needs(&self, container: u64, other: ActionKind) -> bool
        ensures { result ≡ is_needed_by self.now (StopContainer container) other }
    {
        let ActionKind::RemoveContainer { container: removed } = other else {
            return false;
        };
        let Some(row) = self.seen.containers.get(container as usize) else {
            return false;
        };
        let Some(dependent) = self.seen.containers.get(removed as usize) else {
            return false;
        };
        !self.is_up() && self.depends_on(dependent, row)
    }

    /// Whether a container's service depends on another container's. No memory.
    fn depends_on(&self, row: &Listed, other: &Listed) -> bool
        ensures { result ≡ depends_on self.now.declared row.now other.now }
    {
        let services = self.services.find(service_named(&row.labels));
        any_depends(self.declared, row, other, services)
    }

    /// The create of a slot's container needs the removals of the containers that are in its way, and the networks
    /// and volumes that it uses.
    fn create_needs(&self, alloc: Global, slot: u32, other: ActionKind) -> Result<bool, Memory>
        ensures { IfOk result (λ needed.
            needed ≡ is_needed_by self.now (CreateSlot slot) other) }
    {
        let Some(slot) = self.declared.slots.get(slot as usize) else {
            return Ok(false);
        };
        match other {
            ActionKind::RemoveContainer { container } => {
                match self.seen.containers.get(container as usize) {
                    Some(row) => is_in_way(alloc, slot, row),
                    None => Ok(false),
                }
            }
            ActionKind::MakeNetwork { network } => Ok(attaches_to(slot, network)),
            ActionKind::MakeVolume { volume } => {
                Ok(match self.declared.volumes.get(volume as usize) {
                    Some(volume) => is_bound_by(slot.spec.get(), &volume.name),
                    None => false,
                })
            }
            _ => Ok(false),
        }
    }

    /// A connect needs the slot's container and the network that it joins.
    fn connect_needs(&self, slot: u32, attach: u32, other: ActionKind) -> bool
        ensures { result ≡ is_needed_by self.now (ConnectSlot slot attach) other }
    {
        match other {
            ActionKind::CreateSlot { slot: created } => slot == created,
            ActionKind::MakeNetwork { network } => {
                let Some(slot) = self.declared.slots.get(slot as usize) else {
                    return false;
                };
                match slot.attach.get(attach as usize) {
                    Some(joined) => joined.network == network,
                    None => false,
                }
            }
            _ => false,
        }
    }
}

impl Planner<'_> {
    /// The stop of the container that a slot keeps needs the starts of the slots by whose update it starts anew.
    fn restart_needs(&self, slot: u32, other: ActionKind) -> bool
        ensures { result ≡ is_needed_by self.now (StopKept slot) other }
    {
        let ActionKind::StartSlot { slot: started } = other else {
            return false;
        };
        match self.declared.slots.get(slot as usize) {
            Some(slot) => self.restarts_for(slot.needs.as_slice(), started),
            None => false,
        }
    }

    /// Whether one of these needs asks for a restart by the update of a slot.
    fn restarts_for(&self, needs: &[Need], started: u32) -> bool
        ensures { result ≡ list_any (λ need. (need.slot == started)
            && asks_restart self.now.declared self.now.seen need) needs.now }
    {
        needs.iter().any(|need| self.restarts_by(need, started))
    }

    /// Whether a need asks for a restart by the update of a slot. No memory.
    fn restarts_by(&self, need: &Need, started: u32) -> bool
        ensures { result ≡ ((need.now.slot == started)
            && asks_restart self.now.declared self.now.seen need.now) }
    {
        need.slot == started && self.asks_restart(need)
    }
}

/// Whether an action needs every removal. No memory.
fn needs_removals(kind: ActionKind) -> bool
    ensures { result ≡ needs_removals kind }
{
    matches!(
        kind,
        ActionKind::RemoveNetwork { .. } | ActionKind::RemoveVolume { .. }
    )
}

/// The places of the actions that are removals.
pub(crate) fn removals_in(alloc: Global, kinds: &[ActionKind]) -> Result<List<u32>, Memory>
    ensures { IfOk result (λ removals. removals ≡ removals_in kinds.now) }
{
    let mut removals = List::new(alloc);
    for at in 0..kinds.len() {
        let is_removal = is_removal_at(kinds, at);
        push_if(&mut removals, at, is_removal)?;
    }
    Ok(removals)
}

/// Whether the action at a place is the removal of a container. No memory.
fn is_removal_at(kinds: &[ActionKind], at: usize) -> bool
    ensures { result ≡ is_removal_at kinds.now at }
{
    match item_at(kinds, at) {
        Some(kind) => matches!(kind, ActionKind::RemoveContainer { .. }),
        None => false,
    }
}

/// Puts a place last where it is asked for.
fn push_if(numbers: &mut List<u32>, at: usize, is_asked: bool) -> Result<(), Memory>
    ensures { OnOk result (numbers.new ≡ numbers.old ++ (if is_asked then at ∷ [] else [])) }
{
    if is_asked {
        numbers.push(number_of(at)?)?;
    }
    Ok(())
}

/// The start of a slot's container needs its create, its connects, and its stop.
fn start_needs(slot: u32, other: ActionKind) -> bool
    ensures { (basis : Basis) → result ≡ is_needed_by basis (StartSlot slot) other }
{
    match other {
        ActionKind::CreateSlot { slot: created } => slot == created,
        ActionKind::ConnectSlot { slot: joined, .. } => slot == joined,
        ActionKind::StopKept { slot: stopped } => slot == stopped,
        _ => false,
    }
}

/// Whether a container is made with a volume: the name stands before the first colon of a bind.
fn is_bound_by(spec: &ContainerSpec, name: &Text) -> bool
    ensures { result ≡ is_bound_by spec.now name.now }
{
    match &spec.binds {
        Some(binds) => binds
            .as_slice()
            .iter()
            .any(|bind| name.as_str() == source_of(bind)),
        None => false,
    }
}

/// What stands before the first colon of a bind, or all of it.
pub(crate) fn source_of(bind: &Text) -> &str
    ensures { result.now ≡ before_first (λ (byte : ℕ). byte == 58) bind.now }
{
    match bind.as_str().split_once(':') {
        Some((source, _)) => source,
        None => bind.as_str(),
    }
}

/// Whether a slot attaches to a network.
fn attaches_to(slot: &Slot, network: u32) -> bool
    ensures { result ≡ attaches_to network slot.now }
{
    slot.attach
        .as_slice()
        .iter()
        .any(|attach| attach.network == network)
}

/// Whether one of these services is a container's, and depends on another container's. No memory.
fn any_depends(declared: &Declared, row: &Listed, other: &Listed, services: &[u64]) -> bool
    ensures { result ≡ list_any (depends_by_at declared.now row.now other.now) services.now }
{
    services
        .iter()
        .any(|service| depends_by_at(declared, row, other, *service))
}

fn depends_by_at(declared: &Declared, row: &Listed, other: &Listed, service: u64) -> bool
    ensures { result ≡ depends_by_at declared.now row.now other.now service }
{
    match declared.services.get(service as usize) {
        Some(service) => depends_by(service, row, other),
        None => false,
    }
}

fn depends_by(service: &DeclaredService, row: &Listed, other: &Listed) -> bool
    ensures { result ≡ depends_by row.now other.now service.now }
{
    names_service(&service.key, &row.labels)
        && names_one(service.depends_on.as_slice(), &other.labels)
}

/// Whether labels name one of these services.
fn names_one(keys: &[Text], pairs: &Pairs) -> bool
    ensures { result ≡ list_any (λ key. names_service key pairs.now) keys.now }
{
    keys.iter().any(|key| names_service(key, pairs))
}

/// Whether a container is of a slot or has its name.
fn is_in_way(alloc: Global, slot: &Slot, row: &Listed) -> Result<bool, Memory>
    ensures { IfOk result (λ answer. answer ≡ is_in_way slot.now row.now) }
{
    if row.name == slot.name {
        return Ok(true);
    }
    names_slot(alloc, slot, &row.labels)
}
