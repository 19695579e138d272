//! The rows that a ledger keeps of a run's actions and workers, so that no call has to look through the journal: how each action
//! stands, how many needs keep it, and which is the next one; whom the end of an action lets go, and whom its loss blocks.
//!
//! Contracts say that the rows say what the definitions of a run say of the journal: `claim`, `end_well` and `end_badly` leave
//! them so with their entry, in any legal journal; `meet`, `unmeet` and `fail` with what a report changes; `ready_is_next` is the law that the first ready action is the next one
//! that may be claimed.
#![tactic(auto)]

mod action_rows;
mod blocking;
mod dependents;
mod entries;
mod laws;
mod releasing;
mod reports;
mod worker_row;

pub use action_rows::{ActionRows, State};
pub use blocking::lose;
pub use dependents::{add_to_all, empty_rows, turned};
pub use entries::{claim, end_badly, end_well};
pub use laws::{blocked_is_the_one_answer, quiet_entries_keep_rows, ready_is_next};
pub use releasing::release;
pub use reports::{fail, meet, unmeet};
pub use worker_row::{WorkerRow, is_other_out};
