//! Why a call of `compose` ended otherwise than well, with the exit status and the line of each reason: how words are
//! refused, what loading refuses, why a project declares nothing of the Engine, what a run is refused with, and the faults
//! of the outside.
//!
//! Contracts say the status and the line of every refusal exactly, and what a sink grew by that a line was said to:
//! the whole line, or a prefix of it where the sink's count of faults rose. A refusal whose line finds no memory is
//! said as a want of memory.
#![tactic(auto)]

mod condition;
mod declaring_refusals;
mod declaring_words;
mod line;
mod loading_refusals;
mod refusal;
mod run_refusal;
mod saying;
mod status;
mod words_refusal;

pub use active_services::ActiveRefusal;
pub use compose_words::WordsRefusal;
pub use declared_set::IdentityRefusal;
pub use file_digests::DigestRefusal;
pub use line::refusal_line;
pub use loaded_files::LoadRefusal;
pub use loading_words::ProjectRefusal;
pub use refusal::{Part, Refusal, Unbuilt};
pub use run_refusal::refusal_of;
pub use saying::{say, say_if_any};
pub use status::{refusal_status, status_of};
