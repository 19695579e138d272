//! The lines of logs as they are printed: each under the name of its container, output behind a bar and errors behind an
//! exclamation mark, in the order of the entries.
//!
//! What a sink is given is put together line by line and written in large pieces. It grows by exactly the text of all entries, or
//! by a prefix of it, where its count of faults rose or memory was wanted.
#![tactic(auto)]

mod printing;

pub use printing::write_entries;
