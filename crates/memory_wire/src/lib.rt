//! Connections in memory: pipes with the bytes that they give, in pieces of told sizes, a wire that dials them in order, and a
//! door at which they come; and the streams and doors of plugs in memory.
//!
//! They tell all that was said on them, and exactly the calls fail that they were told. Want of memory is the one refusal of
//! making them.
#![tactic(auto)]

mod counting;
mod memory_door;
mod memory_doors;
mod memory_pipe;
mod memory_streams;
mod memory_wire;

pub use memory_door::MemoryDoor;
pub use memory_doors::MemoryDoors;
pub use memory_pipe::MemoryPipe;
pub use memory_streams::MemoryStreams;
pub use memory_wire::MemoryWire;
