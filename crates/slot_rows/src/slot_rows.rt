ghost use Rattle.std.specs.Prelude.{◌≡◌, ◌<◌, IfOk, get_or, length, map, set};
ghost use Rattle.tree_base.specs.Limits.{count_bound};
ghost use Rattle.rank_rows.specs.Ranks.{least};
ghost use Rattle.slot_rows.specs.Keys.{no_slot, slot_key};

use crate::slot_row::{SlotRow, key_of};
use rank_rows::RankRow;
use std::alloc::Global;
use std::marker::Model;
use tree_base::Memory;

/// The rows of the slots, with the order in which they are polled; contracts see the rows.
#[derive(Drop)]
pub struct SlotRows {
    rows: Vec<SlotRow>,
    watch: RankRow,
}

impl Model for SlotRows {
    ghost use Rattle.std.specs.Prelude.{◌≡◌, List, map};
    ghost use Rattle.slot_rows.specs.declared.slot_row.SlotRow.{SlotRow};
    ghost use Rattle.slot_rows.specs.Keys.{slot_key};

    ghost Value = { List SlotRow };

    ghost view = { λ s. s.rows.items };

    ghost invariant = { λ s. s.watch ≡ map slot_key s.rows.items };
}

impl SlotRows {
    /// The rows of slots. The whole room of their order is taken here.
    pub fn new(alloc: Global, rows: Vec<SlotRow>) -> Result<SlotRows, Memory>
        requires { length rows.items < count_bound }
        ensures { IfOk result (λ slots. slots ≡ rows.items) }
    {
        let count = rows.len() as u32;
        let mut watch = RankRow::new(alloc, count)?;
        for at in 0..count {
            watch.put(at, key_of(rows[at as usize]));
        }
        Ok(SlotRows { rows, watch })
    }

    /// The row of a slot. No memory.
    pub fn row(&self, slot: u32) -> SlotRow
        requires { slot < length self.now }
        ensures { result ≡ get_or self.now slot no_slot }
    {
        self.rows[slot as usize]
    }

    /// Sets the row of a slot. No memory.
    pub fn set(&mut self, slot: u32, row: SlotRow)
        requires { slot < length self.old }
        ensures { self.new ≡ set self.old slot row }
    {
        self.rows[slot as usize] = row;
        self.watch.put(slot, key_of(row));
    }

    /// The slot with the fewest polls of those that may be polled, and the first of these. No memory.
    pub fn first(&self) -> Option<u32>
        ensures { result ≡ least (map slot_key self.now) }
    {
        self.watch.first()
    }
}
