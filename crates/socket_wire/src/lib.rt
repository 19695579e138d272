//! The wire over a Unix socket, with the clock of the system, and the door at one.
//!
//! A wire connects to its socket's path at each dial, and a connection tells nothing of what is said on it. Both count their
//! faults: one for each call that failed, and for each write that took nothing; a dial never wants memory. The clock counts
//! its readings, its pauses and how often it was asked to stop, which it is where a file is found at a path. A connection waits for
//! its peer until sixty seconds behind a deadline, or behind the coming of that file; then its calls fail.
#![tactic(auto)]

mod patience;
mod socket_door;
mod socket_pipe;
mod socket_wire;
mod times;

pub use patience::{PATIENCE_SECONDS, Patience};
pub use socket_door::SocketDoor;
pub use socket_pipe::SocketPipe;
pub use socket_wire::{SocketWire, connect};
pub use times::milliseconds;
