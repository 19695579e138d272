//! The traits of everything outside of the program: connections, hands that speak with an Engine, doors that take connections,
//! and plugs that make hands, streams and doors; and files and sinks, which `outside_files` has.
//!
//! Each counts its faults, and an answer that tells of a fault comes only where that count rose. What an
//! object holds is told by its forms in memory and not by the real ones, and the clauses on content hold
//! where it is told.
#![tactic(auto)]

mod clock_counts;
mod dial;
mod door;
mod hand;
mod laws;
mod memory_clock;
mod pipe;
mod plug;
mod wire;
mod writing;

pub use clock_counts::{ClockCounts, placed};
pub use dial::{Dial, copied_stop_file, note_dial, note_door, note_stream};
pub use door::Door;
pub use hand::Hand;
pub use laws::caused_stays_told;
pub use memory_clock::MemoryClock;
pub use outside_files::{
    DiskFiles, FileAnswer, Files, MemoryFiles, MemorySink, OutSink, Sink, SinkAnswer, write_all,
};
pub use pipe::{Pipe, PipeAnswer};
pub use plug::{Plug, Target};
pub use wire::{DialAnswer, Wire};
pub use writing::write_on;
