//! What each action of a plan waits for: the actions that it needs, and the starts that its slot's needs name. Turned round these
//! are the rows of a ledger: whom the loss of an action blocks, whom it lets go, and whom its good end does.
//!
//! The contract of `all_waited_for` says how often each action waits for each; the laws that this is what the definitions of
//! the rows say.
#![tactic(auto)]

mod laws;
mod wait;
mod waiting;

pub use laws::{turned_are_dependents, waits_are_defined};
pub use wait::Wait;
pub use waiting::{all_waited_for, slot_needs, start_at};
