//! The rows that a ledger begins with, made from a plan once, in time linear in its needs: for each action those that wait for it,
//! for each slot the starts that ask for a condition of it, how many needs keep each action at first, and the first row of each
//! slot and of each worker.
//!
//! Contracts say what each row is in the words of the plan; `rows_are_asking` is the law that the rows of starts are those that
//! reports go by, `first_rows_say` that the first rows say what a journal says that has only its observation.
#![tactic(auto)]

mod ask;
mod asking;
mod dependents;
mod lacks;
mod laws;
mod needs;
mod slots;
mod workers;

pub use ask::Ask;
pub use asking::asking_rows;
pub use dependents::dependent_rows;
pub use lacks::first_lacks;
pub use laws::{first_rows_say, firsts_of_plans, rows_are_asking};
pub use slots::first_slots;
pub use workers::first_workers;
