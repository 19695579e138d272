//! The plug of the program, and its hands: each speaks over a Unix socket, or shares an Engine in memory with the others of its
//! plug.
//!
//! A hand is one of the two, and meets the contract of `Hand` as that one does. The plug's contract says of which kind the
//! hand of a target is: for a socket one over that very path, with that stop file, that never connected; for the target in
//! memory one under a lock that it shares. Hands over sockets tell a board of their exchanges, of which no contract speaks. It keeps the dials that it was asked for. A dial never fails, and wants memory at most.
#![tactic(auto)]

mod main_hand;
mod main_plug;
mod socket_hand;

pub use main_hand::MainHand;
pub use main_plug::MainPlug;
pub use socket_hand::SocketHand;
