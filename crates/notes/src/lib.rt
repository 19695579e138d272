//! Notes: what the program may say behind all lines of a call, of what its reader may not know of: a variable that is unset, an attribute
//! that has no effect, a file that isn't read, containers that stay.
//!
//! Contracts give each text exactly, by words, files and the exchanges of a run. There is no note where nothing is known.
#![tactic(auto)]

mod attributes;
mod containers;
mod files;
mod line;
mod orphans;
mod variables;

pub use attributes::attribute_notes;
pub use containers::run_note;
pub use files::{looks_for_file, unread_note};
pub use line::{note_line, say_note};
pub use orphans::orphan_note;
pub use variables::unset_note;
