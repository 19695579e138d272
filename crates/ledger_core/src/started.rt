use crate::places::Places;
use ledger_ends::{Dependents, Losses};
use ledger_rows::{ActionRows, WorkerRow};
use slot_rows::SlotRows;

/// The finished rows of a ledger whose run has only its observation.
#[derive(Drop)]
pub struct Started {
    pub rows: ActionRows,
    pub slots: SlotRows,
    pub workers: Vec<WorkerRow>,
    pub losses: Losses,
    pub dependents: Dependents,
    pub places: Places,
}
