//! Files that are read and sinks that are written to: their traits, with their forms in memory, the files of the disk and
//! streams.
//!
//! Each counts its faults, and an answer that tells of a fault comes only where that count rose. What an object holds is
//! told by its forms in memory and not by the real ones, and the clauses on content hold where it is told. All files tell
//! which reads they were asked for, and which of them failed. A text is
//! written to a sink piece by piece: the sink grows by the whole text, or by a prefix of it where its count of faults rose.
#![tactic(auto)]

mod disk_files;
mod failing;
mod file_read;
mod files;
mod memory_files;
mod memory_sink;
mod out_sink;
mod sink;
mod writing;

pub use disk_files::DiskFiles;
pub use failing::Failing;
pub use file_read::FileRead;
pub use files::{FileAnswer, Files};
pub use memory_files::MemoryFiles;
pub use memory_sink::MemorySink;
pub use out_sink::OutSink;
pub use sink::{Sink, SinkAnswer};
pub use writing::write_all;
