//! What the files of one load give: their bytes, of at most 64 files; the variables of env files; and the trees of
//! Compose files, whose scalars are substituted, in long forms, laid over one another, with their shape asked.
//!
//! A definition is a run of reads: which path is read next, and what follows what is seen there. A call answers what
//! its definition gives for what was seen, or the first refusal. Want of memory is free, and `ReadFault` comes only
//! where a read failed.
#![tactic(auto)]

mod fields;
mod file_tree;
mod laws;
mod laying;
mod outcome;
mod reads;
mod refusal;
mod variables;

pub use fields::{entries_at, entries_in, names_of, only, text_at, text_of, texts_at};
pub use laws::upper_variables_win;
pub use laying::{file_laid, files_laid, shaped};
pub use outcome::Loaded;
pub use reads::{Seen, look};
pub use refusal::{Kind, LoadRefusal, ServiceAt};
pub use variables::{environment, with_file, with_file_if};
