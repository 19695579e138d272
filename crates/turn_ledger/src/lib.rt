//! An object that threads share, one turn at a time: whoever has a seat waits for its turn, makes one call, and leaves.
//!
//! Contracts say that each call is answered as the object answers it at its place in one history, which begins with all that
//! the caller's seat had seen; that a seat has exactly its own entries of that history; and that the object which comes back
//! has the whole of it. Whether a turn comes isn't said: `act` may wait.
#![tactic(auto)]

mod plays;
mod serial;
mod turns;
mod view;

pub use serial::Serial;
pub use turns::{Place, TurnSeat, Turns};
pub use view::{Opening, Stage, View};
