//! What slots, services, containers and actions are found by.

ghost use Rattle.std.specs.Prelude.{◌≡◌, false, IfOk, length, map, slice_get};
ghost use Rattle.std.specs.List.{list_any};
ghost use Rattle.std.specs.Option.{option_copied, option_map_or};
ghost use Rattle.plan_core.specs.Finding.{container_text, slot_seen, slot_text, slot_text_at};
ghost use Rattle.plan_core.specs.Index.{numbers_under};
ghost use Rattle.plan_core.specs.Keeping.{containers_under, is_slots_at, texts_under};
ghost use Rattle.rolling_update.specs.Needs.{is_other_at, is_seen_at, step_text, strays};
ghost use Rattle.run_model.specs.EngineRules.{is_live};
ghost use Rattle.run_model.specs.Plans.{slot_at};
ghost use Rattle.run_model.specs.Rolling.{has_name_of_another, has_seen, is_same_slot, roll_of};

use crate::texts::{Texts, text_at};
use engine_types::{Action, Declared, Listed, Seen, Slot};
use plan_core::{TextIndex, texts_under};
use run_lookups::{is_live, is_of_slot};
use std::alloc::Global;
use std::marker::Model;
use tree_base::{Memory, Text};

/// What slots, services, containers and actions are found by. Contracts see what is declared, what was seen, and the actions.
#[derive(Drop)]
pub(crate) struct Finder<'a> {
    declared: &'a Declared,
    seen: &'a Seen,
    actions: &'a [Action],
    /// The texts of the slots.
    texts: &'a [Text],
    /// The texts of the slots that the labels of the containers name.
    row_texts: &'a [Text],
    /// The numbers of the slots, under their texts.
    slots: TextIndex<'a>,
    /// The numbers of the slots, under their names.
    names: TextIndex<'a>,
    /// The places of the containers, under the texts of the slots that their labels name.
    rows: TextIndex<'a>,
    /// The numbers of the services, under their keys.
    keys: TextIndex<'a>,
    /// The places of the actions, under the texts of the slots that they stop or start.
    steps: TextIndex<'a>,
}

impl<'a> Model for Finder<'a> {
    ghost use Rattle.std.specs.Prelude.{◌≡◌, map};
    ghost use Rattle.plan_core.specs.Finding.{container_text, slot_text};
    ghost use Rattle.plan_core.specs.Keeping.{texts_under};
    ghost use Rattle.rolling_update.specs.Needs.{Given, step_text};

    ghost Value = { Given };

    ghost view = { λ f. record {
      scene = record { declared = f.declared.now; seen = f.seen.now };
      actions = f.actions.now;
    } };

    ghost invariant = { λ f.
        (f.texts.now ≡ map slot_text f.declared.now.slots)
        × (f.row_texts.now ≡ map container_text f.seen.now.containers)
        × (f.slots ≡ texts_under (map slot_text f.declared.now.slots))
        × (f.names ≡ texts_under (map (λ slot. slot.name) f.declared.now.slots))
        × (f.rows ≡ texts_under (map container_text f.seen.now.containers))
        × (f.keys ≡ texts_under (map (λ service. service.key) f.declared.now.services))
        × (f.steps ≡ texts_under (map
        (step_text (record { declared = f.declared.now; seen = f.seen.now })) f.actions.now)) };
}

impl<'a> Finder<'a> {
    pub(crate) fn new(
        alloc: Global,
        declared: &'a Declared,
        seen: &'a Seen,
        actions: &'a [Action],
        all: &'a Texts,
    ) -> Result<Finder<'a>, Memory>
        requires slots { all.now.slots ≡ map slot_text declared.now.slots }
        requires names { all.now.names ≡ map (λ slot. slot.name) declared.now.slots }
        requires rows { all.now.rows ≡ map container_text seen.now.containers }
        requires keys { all.now.keys ≡ map (λ service. service.key) declared.now.services }
        requires steps { all.now.steps ≡ map
            (step_text (record { declared = declared.now; seen = seen.now })) actions.now }
        ensures { IfOk result (λ finder. finder ≡ record {
          scene = record { declared = declared.now; seen = seen.now };
          actions = actions.now;
        }) }
    {
        let texts = all.slots.as_slice();
        let row_texts = all.rows.as_slice();
        let slots = texts_under(alloc, texts)?;
        let names = texts_under(alloc, all.names.as_slice())?;
        let rows = texts_under(alloc, row_texts)?;
        let keys = texts_under(alloc, all.keys.as_slice())?;
        let steps = texts_under(alloc, all.steps.as_slice())?;
        Ok(Finder {
            declared,
            seen,
            actions,
            texts,
            row_texts,
            slots,
            names,
            rows,
            keys,
            steps,
        })
    }

    /// The actions. No memory.
    pub(crate) fn actions(&self) -> &'a [Action]
        ensures { result.now ≡ self.now.actions }
    {
        self.actions
    }

    /// How many slots there are. No memory.
    pub(crate) fn count(&self) -> usize
        ensures { result ≡ length self.now.scene.declared.slots }
    {
        self.declared.slots.len()
    }

    /// The slot with a number. No memory.
    pub(crate) fn slot(&self, number: u64) -> Option<&'a Slot>
        ensures { option_copied result ≡ slot_at self.now.scene.declared number }
    {
        self.declared.slots.get(number as usize)
    }

    /// The container at a place. No memory.
    pub(crate) fn row(&self, place: u64) -> Option<&'a Listed>
        ensures { option_copied result ≡ slice_get self.now.scene.seen.containers place }
    {
        self.seen.containers.get(place as usize)
    }

    /// The text of the slot with a number, and the empty text past the last. No memory.
    pub(crate) fn text(&self, number: u64) -> &'a str
        ensures { result.now ≡ slot_text_at self.now.scene.declared number }
    {
        text_at(self.texts, number as usize)
    }

    /// The text of the slot that the labels of the container at a place name, and the empty text past the last. No memory.
    pub(crate) fn row_text(&self, place: u64) -> &'a str
        ensures { result.now ≡ slot_seen self.now.scene.seen place }
    {
        text_at(self.row_texts, place as usize)
    }

    /// The numbers of the slots with the text that the labels of the container at a place name. No memory.
    pub(crate) fn slots_under(&self, place: u64) -> &[u64]
        ensures { result.now ≡ numbers_under
            (texts_under (map slot_text self.now.scene.declared.slots)) (slot_seen self.now.scene.seen place) }
    {
        self.slots.find(self.row_text(place))
    }

    /// The places of the containers with the text of the slot with a number. No memory.
    pub(crate) fn rows_under(&self, number: u64) -> &[u64]
        ensures { result.now ≡ numbers_under (containers_under self.now.scene.seen)
            (slot_text_at self.now.scene.declared number) }
    {
        self.rows.find(self.text(number))
    }

    /// The places of the actions with the text of the slot with a number. No memory.
    pub(crate) fn steps_under(&self, number: u64) -> &[u64]
        ensures { result.now ≡ numbers_under
            (texts_under (map (step_text self.now.scene) self.now.actions))
            (slot_text_at self.now.scene.declared number) }
    {
        self.steps.find(self.text(number))
    }

    /// Whether the container at a place is a slot's.
    pub(crate) fn is_its(&self, alloc: Global, slot: &Slot, place: u64) -> Result<bool, Memory>
        ensures { IfOk result (λ is.
            is ≡ is_slots_at self.now.scene.declared self.now.scene.seen slot.now place) }
    {
        match self.row(place) {
            Some(row) => is_of_slot(alloc, &self.declared.project, slot, &row.labels),
            None => Ok(false),
        }
    }

    /// Whether the container at a place was seen live. No memory.
    pub(crate) fn is_live_at(&self, place: u64) -> bool
        ensures { result ≡ option_map_or (λ row. is_live row.state)
            (slice_get self.now.scene.seen.containers place) false }
    {
        match self.row(place) {
            Some(row) => is_live(row.state),
            None => false,
        }
    }

    /// How many slots of a slot's service are replaced at a time; None where all are at once. No memory.
    pub(crate) fn roll_of(&self, slot: &Slot) -> Option<u32>
        ensures { result ≡ roll_of self.now.scene.declared slot.now }
    {
        match self.keys.find(slot.service.as_str()) {
            [] => None,
            [first, ..] => match self.declared.services.get(*first as usize) {
                Some(service) => service.roll,
                None => None,
            },
        }
    }

    /// Whether a live container of the slot with a number was seen.
    pub(crate) fn has_live(&self, alloc: Global, number: u64) -> Result<bool, Memory>
        ensures { IfOk result (λ has. has ≡ option_map_or
            (λ slot. has_seen self.now.scene.declared self.now.scene.seen slot (λ row. is_live row.state))
            (slot_at self.now.scene.declared number) false) }
    {
        match self.slot(number) {
            Some(slot) => self.any_live(alloc, slot, self.rows_under(number)),
            None => Ok(false),
        }
    }

    /// Whether one of the containers at some places is a slot's and was seen live.
    fn any_live(&self, alloc: Global, slot: &Slot, places: &[u64]) -> Result<bool, Memory>
        ensures { IfOk result (λ any. any ≡ list_any
            (is_seen_at self.now.scene slot.now (λ row. is_live row.state)) places.now) }
    {
        for place in places {
            if self.is_live_of(alloc, slot, *place)? {
                return Ok(true);
            }
        }
        Ok(false)
    }

    /// Whether the container at a place is a slot's and was seen live.
    fn is_live_of(&self, alloc: Global, slot: &Slot, place: u64) -> Result<bool, Memory>
        ensures { IfOk result (λ is.
            is ≡ is_seen_at self.now.scene slot.now (λ row. is_live row.state) place) }
    {
        match self.row(place) {
            Some(row) => {
                let is_its = is_of_slot(alloc, &self.declared.project, slot, &row.labels)?;
                Ok(is_its && is_live(row.state))
            }
            None => Ok(false),
        }
    }

    /// Whether a container of the slot with a number was seen that has another slot's name.
    pub(crate) fn strays(&self, alloc: Global, number: u64) -> Result<bool, Memory>
        ensures { IfOk result (λ stray. stray ≡ option_map_or (strays self.now.scene)
            (slot_at self.now.scene.declared number) false) }
    {
        match self.slot(number) {
            Some(slot) => self.any_strays(alloc, slot, self.rows_under(number)),
            None => Ok(false),
        }
    }

    /// Whether one of the containers at some places is a slot's and has another slot's name.
    fn any_strays(&self, alloc: Global, slot: &Slot, places: &[u64]) -> Result<bool, Memory>
        ensures { IfOk result (λ any. any ≡ list_any
            (is_seen_at self.now.scene slot.now (has_name_of_another self.now.scene.declared slot.now))
            places.now) }
    {
        for place in places {
            if self.is_stray(alloc, slot, *place)? {
                return Ok(true);
            }
        }
        Ok(false)
    }

    /// Whether the container at a place is a slot's and has another slot's name.
    fn is_stray(&self, alloc: Global, slot: &Slot, place: u64) -> Result<bool, Memory>
        ensures { IfOk result (λ is. is ≡ is_seen_at self.now.scene slot.now
            (has_name_of_another self.now.scene.declared slot.now) place) }
    {
        match self.row(place) {
            Some(row) => {
                let is_its = is_of_slot(alloc, &self.declared.project, slot, &row.labels)?;
                Ok(is_its && self.has_name_of_another(slot, row))
            }
            None => Ok(false),
        }
    }

    /// Whether a container has the name of another slot than this one. No memory.
    fn has_name_of_another(&self, slot: &Slot, row: &Listed) -> bool
        ensures { result ≡ has_name_of_another self.now.scene.declared slot.now row.now }
    {
        any_other(self.declared, slot, row, self.names.find(row.name.as_str()))
    }
}

/// Whether one of the slots with some numbers is another one, and a container has its name. No memory.
fn any_other(declared: &Declared, slot: &Slot, row: &Listed, numbers: &[u64]) -> bool
    ensures { result ≡ list_any (is_other_at declared.now slot.now row.now) numbers.now }
{
    for number in numbers {
        if is_other(declared, slot, row, *number) {
            return true;
        }
    }
    false
}

/// Whether the slot with a number is another one, and a container has its name. No memory.
fn is_other(declared: &Declared, slot: &Slot, row: &Listed, number: u64) -> bool
    ensures { result ≡ is_other_at declared.now slot.now row.now number }
{
    match declared.slots.get(number as usize) {
        Some(other) => !is_same(slot, other) && row.name == other.name,
        None => false,
    }
}

/// Whether two slots are the same one. No memory.
fn is_same(slot: &Slot, other: &Slot) -> bool
    ensures { result ≡ is_same_slot slot.now other.now }
{
    slot.service == other.service && slot.number == other.number
}
