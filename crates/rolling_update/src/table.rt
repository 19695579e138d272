//! What the needs that a rolling update adds are looked up in.

ghost use Rattle.std.specs.Prelude.{◌≡◌, ◌++◌, filter, flat_map, IfOk, OnOk, map};
ghost use Rattle.std.specs.Option.{option_map_or};
ghost use Rattle.rolling_update.specs.Needs.{AreAdded, AreWaited, owns, rolling, starts_before, stops_at};
ghost use Rattle.run_model.specs.EngineRules.{Among};
ghost use Rattle.run_model.specs.Numbers.{places};
ghost use Rattle.run_model.specs.Plans.{slot_at};
ghost use Rattle.run_model.specs.Rolling.{is_rolled};
ghost use Rattle.engine_types.specs.declared.ActionKind.TheVariants.{StartSlot, StopContainer, StopKept};

use crate::finder::Finder;
use crate::steps::{push_if, push_starts};
use crate::waiting::{flag_at, waited_at};
use engine_types::{ActionKind, Slot};
use std::alloc::Global;
use std::marker::Model;
use tree_base::{Memory, item_at};

/// What the needs that a rolling update adds are looked up in. Contracts see what is declared, what was seen, and the actions.
#[derive(Drop)]
pub(crate) struct Table<'a> {
    finder: Finder<'a>,
    /// For each slot whether it is rolled.
    rolled: Vec<bool>,
    /// For each slot the number of the one for which it waits, if any.
    waited: Vec<Option<u64>>,
}

impl<'a> Model for Table<'a> {
    ghost use Rattle.std.specs.Prelude.{◌≡◌, map};
    ghost use Rattle.rolling_update.specs.Needs.{AreWaited, Given, rolling};
    ghost use Rattle.run_model.specs.Rolling.{is_rolled};

    ghost Value = { Given };

    ghost view = { λ t. t.finder };

    ghost invariant = { λ t.
        (t.rolled.items ≡ map (is_rolled (rolling t.finder.scene)) t.finder.scene.declared.slots)
        × AreWaited t.finder.scene t.waited.items };
}

impl<'a> Table<'a> {
    pub(crate) fn new(finder: Finder<'a>, rolled: Vec<bool>, waited: Vec<Option<u64>>) -> Table<'a>
        requires rolled { rolled.items
            ≡ map (is_rolled (rolling finder.scene)) finder.scene.declared.slots }
        requires waited { AreWaited finder.scene waited.items }
        ensures { result ≡ finder.entry }
    {
        Table {
            finder,
            rolled,
            waited,
        }
    }

    /// The numbers of the actions that a rolling update makes an action need.
    pub(crate) fn added(&self, alloc: Global, kind: ActionKind) -> Result<Vec<u32>, Memory>
        ensures { IfOk result (λ added. AreAdded self.now kind added.items) }
    {
        match kind {
            ActionKind::StopContainer { container } => self.held_back(alloc, container),
            ActionKind::StopKept { slot } => self.before(alloc, u64::from(slot)),
            ActionKind::StartSlot { slot } => self.stops(alloc, u64::from(slot)),
            ActionKind::MakeVolume { .. }
            | ActionKind::MakeNetwork { .. }
            | ActionKind::RemoveContainer { .. }
            | ActionKind::CreateSlot { .. }
            | ActionKind::ConnectSlot { .. }
            | ActionKind::RemoveNetwork { .. }
            | ActionKind::RemoveVolume { .. } => Ok(Vec::new(alloc)),
        }
    }

    /// What the stop of the kept container of the slot with a number is made to need.
    fn before(&self, alloc: Global, number: u64) -> Result<Vec<u32>, Memory>
        ensures { IfOk result (λ added. AreAdded self.now (StopKept number) added.items) }
    {
        let mut added = Vec::new(alloc);
        self.push_before(&mut added, number)?;
        Ok(added)
    }

    /// Puts the start last of the slot for which the one with a number waits.
    fn push_before(&self, added: &mut Vec<u32>, number: u64) -> Result<(), Memory>
        ensures { OnOk result (added.new.items
            ≡ added.old.items ++ starts_before self.now number) }
    {
        match waited_at(self.waited.as_slice(), number as usize) {
            Some(other) => push_starts(added, &self.finder, other),
            None => Ok(()),
        }
    }

    /// What the stop of the container at a place is made to need: where it was seen live, the start of the slot for which its
    /// own one waits.
    fn held_back(&self, alloc: Global, container: u64) -> Result<Vec<u32>, Memory>
        ensures { IfOk result (λ added. AreAdded self.now (StopContainer container) added.items) }
    {
        if !self.finder.is_live_at(container) {
            return Ok(Vec::new(alloc));
        }
        let owners = self.owners(alloc, container)?;
        self.all_before(alloc, owners.as_slice())
    }

    /// The starts of the slots for which those with some numbers wait.
    fn all_before(&self, alloc: Global, numbers: &[u64]) -> Result<Vec<u32>, Memory>
        ensures { IfOk result (λ added.
            added.items ≡ flat_map (starts_before self.now) numbers.now) }
    {
        let mut added = Vec::new(alloc);
        for number in numbers {
            self.push_before(&mut added, *number)?;
        }
        Ok(added)
    }

    /// The numbers of the slots of which the container at a place is.
    fn owners(&self, alloc: Global, container: u64) -> Result<Vec<u64>, Memory>
        ensures { IfOk result (λ owners. owners.items ≡
            filter (owns self.now.scene container) (places self.now.scene.declared.slots)) }
    {
        self.owners_among(alloc, container, self.finder.slots_under(container))
    }

    /// Those of some slots of which the container at a place is, by number.
    fn owners_among(
        &self,
        alloc: Global,
        container: u64,
        numbers: &[u64],
    ) -> Result<Vec<u64>, Memory>
        ensures { IfOk result (λ owners.
            owners.items ≡ filter (owns self.now.scene container) numbers.now) }
    {
        let mut owners = Vec::new(alloc);
        for number in numbers {
            if self.owns(alloc, container, *number)? {
                owners.push(*number)?;
            }
        }
        Ok(owners)
    }

    /// Whether the container at a place is of the slot with a number.
    fn owns(&self, alloc: Global, container: u64, number: u64) -> Result<bool, Memory>
        ensures { IfOk result (λ is. is ≡ owns self.now.scene container number) }
    {
        match self.finder.slot(number) {
            Some(slot) => self.finder.is_its(alloc, slot, container),
            None => Ok(false),
        }
    }

    /// What the start of the slot with a number is made to need: where it is rolled, the stops of its containers.
    fn stops(&self, alloc: Global, number: u64) -> Result<Vec<u32>, Memory>
        ensures { IfOk result (λ added. AreAdded self.now (StartSlot number) added.items) }
    {
        let Some(slot) = self.finder.slot(number) else {
            return Ok(Vec::new(alloc));
        };
        if !flag_at(self.rolled.as_slice(), number as usize) {
            return Ok(Vec::new(alloc));
        }
        self.stops_among(alloc, slot, self.finder.steps_under(number))
    }

    /// Those of some places whose actions stop a container of a slot.
    fn stops_among(&self, alloc: Global, slot: &Slot, found: &[u64]) -> Result<Vec<u32>, Memory>
        ensures { IfOk result (λ stops.
            stops.items ≡ filter (stops_at self.now slot.now) found.now) }
    {
        let mut stops = Vec::new(alloc);
        for place in found {
            let is_stop = self.stops_at(alloc, slot, *place)?;
            push_if(&mut stops, *place, is_stop)?;
        }
        Ok(stops)
    }

    /// Whether the action at a place stops a container of a slot.
    fn stops_at(&self, alloc: Global, slot: &Slot, place: u64) -> Result<bool, Memory>
        ensures { IfOk result (λ is. is ≡ stops_at self.now slot.now place) }
    {
        let Some(action) = item_at(self.finder.actions(), place as usize) else {
            return Ok(false);
        };
        match action.kind {
            ActionKind::StopContainer { container } => self.finder.is_its(alloc, slot, container),
            _ => Ok(false),
        }
    }
}
