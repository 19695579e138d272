//! What a call is asked: its command with its options, and the project that the words, the variables and the files
//! give; or why it is refused.
//!
//! The contract of `project_asked` says the project or the first refusal, in this order: the words, then what isn't
//! built of them, then what they load, the project's name and its services. Every command is given the same project.
//! Nothing is asked of the files where the words are refused.
#![tactic(auto)]

mod asking;
mod loaded;
mod words;

pub use asking::{Asked, project_asked};
pub use compose_words::{Command, Options};
