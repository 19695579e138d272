//! The actions of a plan, in the order of their numbers.

ghost use Rattle.std.specs.Prelude.{◌≡◌, ◌++◌, ◌∷◌, [], IfOk, OnOk, filter, flat_map, length};
ghost use Rattle.std.specs.Cmp.Lexicographic.{slice_cmp};
ghost use Rattle.std.specs.Ordering.{nat_cmp};
ghost use Rattle.plan_core.specs.Rows.{attaches_of, connects_of, ends_of, id_at};
ghost use Rattle.plan_core.specs.Table.{action_of, count_of, row_actions};
ghost use Rattle.run_model.specs.Plans.{is_wanted, places_by_id, planned_kinds};
ghost use Rattle.run_model.specs.Numbers.{numbers_from, places};

use crate::planner::Planner;
use engine_types::{ActionKind, Listed};
use std::alloc::Global;
use std::cmp::Ordering;
use tree_base::{List, Memory, item_at};

/// A row of the table of actions that could have one for each volume, network or slot.
#[derive(Clone, Copy)]
enum Row {
    NewVolumes,
    NewNetworks,
    Creates,
    Restarts,
    Starts,
    OldNetworks,
    OldVolumes,
}

/// The action of a row for the volume, network or slot with a number. No memory.
fn action_of(row: Row, number: u32) -> ActionKind
    ensures { result ≡ action_of row number }
{
    match row {
        Row::NewVolumes => ActionKind::MakeVolume { volume: number },
        Row::NewNetworks => ActionKind::MakeNetwork { network: number },
        Row::Creates => ActionKind::CreateSlot { slot: number },
        Row::Restarts => ActionKind::StopKept { slot: number },
        Row::Starts => ActionKind::StartSlot { slot: number },
        Row::OldNetworks => ActionKind::RemoveNetwork { network: number },
        Row::OldVolumes => ActionKind::RemoveVolume { volume: number },
    }
}

impl Planner<'_> {
    /// The actions of the plan.
    pub(crate) fn planned_kinds(&self, alloc: Global) -> Result<List<ActionKind>, Memory>
        ensures { IfOk result (λ kinds. kinds ≡ planned_kinds self.now) }
    {
        let mut kinds = List::new(alloc);
        self.push_row(&mut kinds, Row::NewVolumes)?;
        self.push_row(&mut kinds, Row::NewNetworks)?;
        self.push_ends_by_id(alloc, &mut kinds)?;
        self.push_row(&mut kinds, Row::Creates)?;
        self.push_connects(&mut kinds)?;
        self.push_row(&mut kinds, Row::Restarts)?;
        self.push_row(&mut kinds, Row::Starts)?;
        self.push_row(&mut kinds, Row::OldNetworks)?;
        self.push_row(&mut kinds, Row::OldVolumes)?;
        Ok(kinds)
    }

    /// Puts an action last where the plan has it.
    fn push_wanted(&self, kinds: &mut List<ActionKind>, kind: ActionKind) -> Result<(), Memory>
        ensures { OnOk result (kinds.new ≡
            kinds.old ++ filter (is_wanted self.now) (kind ∷ [])) }
    {
        if self.is_wanted(kind) {
            kinds.push(kind)?;
        }
        Ok(())
    }

    /// Puts the actions of a row last that the plan has.
    fn push_row(&self, kinds: &mut List<ActionKind>, row: Row) -> Result<(), Memory>
        ensures { OnOk result (kinds.new ≡
            kinds.old ++ filter (is_wanted self.now) (row_actions self.now row)) }
    {
        for at in 0..self.count(row) {
            let number = number_of(at)?;
            self.push_wanted(kinds, action_of(row, number))?;
        }
        Ok(())
    }

    /// How many actions a row could have. No memory.
    fn count(&self, row: Row) -> usize
        ensures { result ≡ count_of self.now row }
    {
        match row {
            Row::NewVolumes => self.declared.volumes.len(),
            Row::NewNetworks => self.declared.networks.len(),
            Row::Creates => self.declared.slots.len(),
            Row::Restarts => self.declared.slots.len(),
            Row::Starts => self.declared.slots.len(),
            Row::OldNetworks => self.declared.networks.len(),
            Row::OldVolumes => self.declared.volumes.len(),
        }
    }

    /// The stop and the removal of each container that goes, in byte order of the ids.
    fn push_ends_by_id(&self, alloc: Global, kinds: &mut List<ActionKind>) -> Result<(), Memory>
        ensures { OnOk result (kinds.new ≡ kinds.old
            ++ filter (is_wanted self.now)
            (flat_map ends_of (places_by_id self.now.seen.containers))) }
    {
        let order = places_by_id(alloc, self.seen.containers.as_slice())?;
        self.push_removals(kinds, order.as_slice())?;
        Ok(())
    }

    /// The stop and the removal of each container that goes, in an order of the containers.
    fn push_removals(&self, kinds: &mut List<ActionKind>, order: &[u64]) -> Result<(), Memory>
        ensures { OnOk result (kinds.new ≡ kinds.old
            ++ filter (is_wanted self.now) (flat_map ends_of order.now)) }
    {
        for container in order {
            self.push_ends(kinds, *container)?;
        }
        Ok(())
    }

    /// The stop and the removal of one container, where it goes.
    fn push_ends(&self, kinds: &mut List<ActionKind>, container: u64) -> Result<(), Memory>
        ensures { OnOk result (kinds.new ≡
            kinds.old ++ filter (is_wanted self.now) (ends_of container)) }
    {
        self.push_wanted(kinds, ActionKind::StopContainer { container })?;
        self.push_wanted(kinds, ActionKind::RemoveContainer { container })?;
        Ok(())
    }

    fn push_connects(&self, kinds: &mut List<ActionKind>) -> Result<(), Memory>
        ensures { OnOk result (kinds.new ≡ kinds.old
            ++ filter (is_wanted self.now)
            (flat_map (connects_of self.now) (places self.now.declared.slots))) }
    {
        for at in 0..self.declared.slots.len() {
            let slot = number_of(at)?;
            self.push_connects_of(kinds, slot)?;
        }
        Ok(())
    }

    /// The connects of one slot.
    fn push_connects_of(&self, kinds: &mut List<ActionKind>, slot: u32) -> Result<(), Memory>
        ensures { OnOk result (kinds.new ≡
            kinds.old ++ filter (is_wanted self.now) (connects_of self.now slot)) }
    {
        for at in 0..self.attach_count(slot) {
            let attach = number_of(at)?;
            self.push_wanted(kinds, ActionKind::ConnectSlot { slot, attach })?;
        }
        Ok(())
    }

    /// How many networks a slot attaches to. No memory.
    fn attach_count(&self, slot: u32) -> usize
        ensures { result ≡ length (attaches_of self.now slot) }
    {
        match self.declared.slots.get(slot as usize) {
            Some(slot) => slot.attach.len(),
            None => 0,
        }
    }
}

/// A place as a number of 32 bits. No memory holds a list with a place past them.
pub(crate) fn number_of(at: usize) -> Result<u32, Memory>
    ensures { IfOk result (λ number. number ≡ at) }
{
    match u32::try_from(at) {
        Ok(number) => Ok(number),
        Err(_) => Err(Memory),
    }
}

/// The places of containers in byte order of their ids, and in their own order where ids are equal.
fn places_by_id(alloc: Global, rows: &[Listed]) -> Result<Vec<u64>, Memory>
    ensures { IfOk result (λ order. order.items ≡ places_by_id rows.now) }
{
    let mut order = all_places(alloc, rows.len())?;
    order.sort_by(|place, other| compare_ids(rows, *place, *other))?;
    Ok(order)
}

/// The places of a list with so many items.
fn all_places(alloc: Global, count: usize) -> Result<Vec<u64>, Memory>
    ensures { IfOk result (λ all. all.items ≡ numbers_from 0 count) }
{
    let mut all = Vec::new(alloc);
    for at in 0..count {
        all.push(at as u64)?;
    }
    Ok(all)
}

/// How the ids of the containers at two places compare. No memory.
fn compare_ids(rows: &[Listed], place: u64, other: u64) -> Ordering
    ensures { result ≡ slice_cmp nat_cmp (id_at rows.now place) (id_at rows.now other) }
{
    id_at(rows, place).cmp(id_at(rows, other))
}

/// The id of the container at a place, and the empty text past the last. No memory.
pub(crate) fn id_at(rows: &[Listed], place: u64) -> &str
    ensures { result.now ≡ id_at rows.now place }
{
    match item_at(rows, place as usize) {
        Some(row) => row.id.as_str(),
        None => "",
    }
}
