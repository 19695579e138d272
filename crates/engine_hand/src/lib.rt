//! The hands of a run over an Engine in memory, and the plug that makes one.
//!
//! `MemoryHand` meets the contract of `Hand`: its log grows by exactly the exchange, and its Engine changes by one
//! answer that an Engine may give, or by none, as the outcome says. What each exchange comes to is exactly what the
//! Engine's plan of faults says of its number.
//!
//! `ScriptHand` answers with told outcomes, one after another. `SilentHand` is one that tells what it heard: its peer closes each
//! connection without an answer.
#![tactic(auto)]

mod fate;
mod memory_hand;
mod memory_plug;
mod outcome;
mod script_hand;
mod silent_hand;
mod silent_plug;

pub use memory_hand::MemoryHand;
pub use memory_plug::MemoryPlug;
pub use script_hand::ScriptHand;
pub use silent_hand::SilentHand;
pub use silent_plug::SilentPlug;
