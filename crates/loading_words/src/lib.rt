//! Why loading gives no project, with the words and the exit status of each reason: how files are refused, and how
//! their tree is.
//!
//! Contracts say what each refusal says and its status exactly. They stand below the run side, so that whatever reads
//! files says its refusals as the program does, and apart from the crate that takes the project from a tree.
#![tactic(auto)]

mod cycle;
mod load_message;
mod message;
mod path;
mod refusal;
mod status;

pub use active_services::ActiveRefusal;
pub use message::{active_words, load_words, project_words, refusal_words};
pub use refusal::{ProjectRefusal, TreeRefusal};
pub use status::{active_status, load_status, project_status, refusal_status};
