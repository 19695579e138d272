//! Hands that share an Engine in memory, each for a worker in a thread of its own.
//!
//! `SharedEngine` is what lies under their lock: the Engine, and the clock of its hands. Its contract says exactly what an
//! exchange, a pause and a look make of both. One that settles changes by itself where a container is looked at, so that what is
//! waited for comes: health, and the end of what runs once.
//!
//! A `SharedHand` makes each of these under the lock, and meets the contract of `Hand`: its log grows by exactly the exchange. The
//! reply is one that an Engine in memory gives to that request, or memory was wanted: nothing is lost or left unsent, and no fault
//! is counted. The hand stays with its lock. What lies under that isn't told, so no clause says that the replies of several hands are
//! those of one Engine. The calls of a hand may wait for the lock, and a pause lets other threads go on.
//!
//! A `SharedPlug` makes such hands for one Engine, which it gives back where none of them is left.
#![tactic(auto)]

mod settling;
mod shared_engine;
mod shared_hand;
mod shared_plug;

pub use shared_engine::SharedEngine;
pub use shared_hand::SharedHand;
pub use shared_plug::SharedPlug;
