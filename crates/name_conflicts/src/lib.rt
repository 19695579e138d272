//! What follows where the Engine refuses to create what there is by that name: a hand looks whether what the create would have made is
//! there, as a request that was sent before may make it a moment later.
//!
//! Contracts say which refusals are such, which listing is asked for and what shows that it is there; and that in each of 8 rounds at
//! most the hand pauses, looks whether it is to stop, reads its clock where there is a deadline, and makes that one exchange.
#![tactic(auto)]

mod conflict;
mod listing;
mod look_end;
mod looking;

pub use conflict::{is_conflict, is_create, is_same_create};
pub use look_end::LookEnd;
pub use looking::look_for;
