//! Cases of what a project declares: a Compose text with its files and the words of a call, and the slots, services, networks
//! and volumes that come of it, with what the Engine is sent for them; or why it is refused.
//!
//! `inputs_of` knows the call and its inputs, and `answer` makes the call of a case. Of a slot, a service, a network and a volume
//! those members are told that the case names.
#![tactic(auto)]

mod asked;
mod calls;
mod declaring;
mod files;
mod members;
mod refusing;
mod resources;
mod sent;
mod services;
mod slots;
mod words;

pub use calls::{answer, inputs_of};
