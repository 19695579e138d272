//! Wires whose connections are as telling as they are: a wire that tells what was said on the connections that were closed has
//! connections that tell what is said on them, and one that doesn't has none that do.
#![tactic(auto)]

mod even_wire;

pub use even_wire::EvenWire;
