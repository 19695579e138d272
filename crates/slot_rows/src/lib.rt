//! The rows that a ledger keeps of a run's slots: whether reports on a slot count, what they said, how often it was polled, and how
//! many starts still ask for it; and the slot that is polled next, found without a scan.
//!
//! Contracts say that a row is exactly what was set; `first_is_next_poll` is the law that, where the rows say what a journal
//! says, the first slot is the one that is polled next; `verdicts_follow_reports` that what `reported` makes of a row is what
//! the definitions say after the end of a poll.
#![tactic(auto)]

mod laws;
mod reports;
mod slot_row;
mod slot_rows;

pub use laws::first_is_next_poll;
pub use reports::{reported, verdicts_follow_reports};
pub use slot_row::SlotRow;
pub use slot_rows::SlotRows;
