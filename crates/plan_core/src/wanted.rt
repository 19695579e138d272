//! Which actions a plan has.

ghost use Rattle.std.specs.Prelude.{◌≡◌, false, slice_get, unwrap_or};
ghost use Rattle.std.specs.Option.{option_copied, option_map_or};
ghost use Rattle.std.specs.List.{list_any};
ghost use Rattle.engine_types.specs.declared.ActionKind.TheVariants.{MakeVolume, MakeNetwork, CreateSlot, ConnectSlot, StopKept, StartSlot, RemoveNetwork, RemoveVolume};
ghost use Rattle.run_model.specs.EngineRules.{is_live as is_live_state};
ghost use Rattle.run_model.specs.Observation.{is_up as is_up_purpose};
ghost use Rattle.run_model.specs.Labels.{has_declared_service};
ghost use Rattle.run_model.specs.Plans.{asks_restart, is_kept, is_network_seen, is_removed, is_restarted, is_unattached, is_unstarted, is_updated, is_volume_seen, is_wanted, kept_of, slot_at};

use crate::planner::Planner;
use engine_types::{ActionKind, Listed, Need, Pairs, Purpose, Seen, Slot, label, labels};
use run_lookups::{goes, has_joined, is_live, is_of_project};
use tree_base::{Text, item_at};

impl Planner<'_> {
    /// Whether the plan has an action. No memory.
    pub(crate) fn is_wanted(&self, kind: ActionKind) -> bool
        ensures { result ≡ is_wanted self.now kind }
    {
        match kind {
            ActionKind::MakeVolume { volume } => self.makes_volume(volume),
            ActionKind::MakeNetwork { network } => self.makes_network(network),
            ActionKind::StopContainer { container } => self.takes_out(container),
            ActionKind::RemoveContainer { container } => self.takes_out(container),
            ActionKind::CreateSlot { slot } => self.creates(slot),
            ActionKind::ConnectSlot { slot, attach } => self.connects(slot, attach),
            ActionKind::StopKept { slot } => self.restarts(slot),
            ActionKind::StartSlot { slot } => self.starts(slot),
            ActionKind::RemoveNetwork { network } => self.removes_network(network),
            ActionKind::RemoveVolume { volume } => self.removes_volume(volume),
        }
    }

    /// Whether the plan brings the project up.
    pub(crate) fn is_up(&self) -> bool
        ensures { result ≡ is_up_purpose self.now.aim.purpose }
    {
        match self.aim.purpose {
            Purpose::Up => true,
            Purpose::Down => false,
        }
    }

    /// Whether some slot keeps a container.
    fn is_kept(&self, row: &Listed) -> bool
        ensures { result ≡ is_kept self.now.declared self.now.seen row.now }
    {
        self.kept_ids.has(row.id.as_str())
    }

    /// Whether a container is to go: one of the project that `up` doesn't keep, or an orphan where these are asked
    /// for.
    fn is_removed(&self, row: &Listed) -> bool
        ensures { result ≡ is_removed self.now row.now }
    {
        let is_declared = self.has_service(&row.labels);
        let is_kept = self.is_up() && self.is_kept(row);
        is_of_project(&self.declared.project, &row.labels)
            && goes(is_declared, is_kept, self.aim.orphans)
    }

    /// Whether labels name a declared service. No memory.
    fn has_service(&self, pairs: &Pairs) -> bool
        ensures { result ≡ has_declared_service self.now.declared pairs.now }
    {
        match label(pairs, labels::SERVICE) {
            Some(service) => self.services.has(service.as_str()),
            None => false,
        }
    }

    fn takes_out(&self, container: u64) -> bool
        ensures { result ≡ option_map_or (is_removed self.now)
            (slice_get self.now.seen.containers container) false }
    {
        match self.seen.containers.get(container as usize) {
            Some(row) => self.is_removed(row),
            None => false,
        }
    }

    fn makes_volume(&self, volume: u32) -> bool
        ensures { result ≡ is_wanted self.now (MakeVolume volume) }
    {
        match self.declared.volumes.get(volume as usize) {
            Some(volume) => {
                self.is_up() && !volume.external && !is_volume_seen(self.seen, &volume.name)
            }
            None => false,
        }
    }

    fn makes_network(&self, network: u32) -> bool
        ensures { result ≡ is_wanted self.now (MakeNetwork network) }
    {
        match self.declared.networks.get(network as usize) {
            Some(network) => {
                self.is_up() && !network.external && !is_network_seen(self.seen, &network.name)
            }
            None => false,
        }
    }

    fn creates(&self, slot: u32) -> bool
        ensures { result ≡ is_wanted self.now (CreateSlot slot) }
    {
        let at = slot as usize;
        self.is_up() && at < self.declared.slots.len() && self.kept(at).is_none()
    }

    fn connects(&self, slot: u32, attach: u32) -> bool
        ensures { result ≡ is_wanted self.now (ConnectSlot slot attach) }
    {
        let at = slot as usize;
        match self.declared.slots.get(at) {
            Some(slot) => self.is_up() && self.is_unattached(slot, self.kept(at), attach),
            None => false,
        }
    }

    /// Whether a slot's attach is still to be made: the create makes the first one, and a kept container has those
    /// that were seen.
    fn is_unattached(&self, slot: &Slot, kept: Option<&Listed>, attach: u32) -> bool
        requires { option_copied kept ≡ kept_of self.now.declared self.now.seen slot.now }
        ensures { result ≡ is_unattached self.now slot.now attach }
    {
        let Some(joined) = slot.attach.get(attach as usize) else {
            return false;
        };
        match kept {
            Some(row) => !has_joined(self.declared, joined, row),
            None => attach != 0,
        }
    }

    fn restarts(&self, slot: u32) -> bool
        ensures { result ≡ is_wanted self.now (StopKept slot) }
    {
        let at = slot as usize;
        match self.declared.slots.get(at) {
            Some(slot) => self.is_up() && self.is_restarted(slot, self.kept(at)),
            None => false,
        }
    }

    /// Whether the container that a slot keeps is stopped to start anew: it is live, and a need asks for it.
    fn is_restarted(&self, slot: &Slot, kept: Option<&Listed>) -> bool
        requires { option_copied kept ≡ kept_of self.now.declared self.now.seen slot.now }
        ensures { result ≡ is_restarted self.now.declared self.now.seen slot.now }
    {
        is_live_row(kept) && self.any_asks_restart(slot.needs.as_slice())
    }

    fn any_asks_restart(&self, needs: &[Need]) -> bool
        ensures { result ≡ list_any (asks_restart self.now.declared self.now.seen) needs.now }
    {
        needs.iter().any(|need| self.asks_restart(need))
    }

    /// Whether a need asks for a restart, and its slot is updated. No memory.
    pub(crate) fn asks_restart(&self, need: &Need) -> bool
        ensures { result ≡ asks_restart self.now.declared self.now.seen need.now }
    {
        need.restart && self.is_updated(need.slot)
    }

    fn is_updated(&self, slot: u32) -> bool
        ensures { result ≡ option_map_or (is_updated self.now.declared self.now.seen)
            (slot_at self.now.declared slot) false }
    {
        flag_at(self.found.updated.as_slice(), slot as usize)
    }

    fn starts(&self, slot: u32) -> bool
        ensures { result ≡ is_wanted self.now (StartSlot slot) }
    {
        let at = slot as usize;
        match self.declared.slots.get(at) {
            Some(slot) => self.is_up() && self.is_unstarted(slot, self.kept(at)),
            None => false,
        }
    }

    /// Whether a slot's container is to be started: it keeps no live one, or the one that it keeps is stopped.
    fn is_unstarted(&self, slot: &Slot, kept: Option<&Listed>) -> bool
        requires { option_copied kept ≡ kept_of self.now.declared self.now.seen slot.now }
        ensures { result ≡ is_unstarted self.now slot.now }
    {
        !is_live_row(kept) || self.is_restarted(slot, kept)
    }

    fn removes_network(&self, network: u32) -> bool
        ensures { result ≡ is_wanted self.now (RemoveNetwork network) }
    {
        match self.declared.networks.get(network as usize) {
            Some(network) => {
                !self.is_up() && !network.external && is_network_seen(self.seen, &network.name)
            }
            None => false,
        }
    }

    fn removes_volume(&self, volume: u32) -> bool
        ensures { result ≡ is_wanted self.now (RemoveVolume volume) }
    {
        match self.declared.volumes.get(volume as usize) {
            Some(volume) => {
                !self.is_up()
                    && self.aim.volumes
                    && !volume.external
                    && is_volume_seen(self.seen, &volume.name)
            }
            None => false,
        }
    }
}

/// Whether a network with a name was seen.
fn is_network_seen(seen: &Seen, name: &Text) -> bool
    ensures { result ≡ is_network_seen seen.now name.now }
{
    seen.networks.as_slice().iter().any(|row| row.name == *name)
}

/// Whether a volume with a name was seen.
fn is_volume_seen(seen: &Seen, name: &Text) -> bool
    ensures { result ≡ is_volume_seen seen.now name.now }
{
    seen.volumes.as_slice().iter().any(|other| *name == *other)
}

/// The flag at a place, and false past the last. No memory.
fn flag_at(flags: &[bool], at: usize) -> bool
    ensures { result ≡ unwrap_or (slice_get flags.now at) false }
{
    match item_at(flags, at) {
        Some(flag) => *flag,
        None => false,
    }
}

/// Whether a container is there and live.
fn is_live_row(row: Option<&Listed>) -> bool
    ensures { result ≡ option_map_or (λ listed. is_live_state listed.now.state) row.entry false }
{
    match row {
        Some(row) => is_live(row.state),
        None => false,
    }
}
