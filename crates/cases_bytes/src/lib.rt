//! Cases of the Engine's messages as bytes: the bytes of a request with its body; what the bytes of a connection, or of a stream of
//! events, answer or tell, however they are cut; the lines of what a container wrote; and what reports say of a goal.
//!
//! `inputs_of` knows the calls and their inputs, and `answer` makes the call of a case.
#![tactic(auto)]

mod asked;
mod calls;
mod containers;
mod events;
mod goals;
mod health;
mod logs;
mod pipe;
mod requests;
mod resources;
mod responses;
mod rows;
mod told;
mod values;

pub use calls::{answer, inputs_of};
