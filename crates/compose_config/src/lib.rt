//! The command `config`: it prints the page of the project that the words and the Compose files give.
//!
//! The contract of `config_run` says when the call is refused and how, that at status 0 the page was written whole,
//! and that otherwise no more than a prefix of it was. Laws say what the page is, line by line, and where it is the
//! text of a Compose file below the project's name.
#![tactic(auto)]

mod config;
mod laws;

pub use config::{ConfigEnd, config_run, print_asked};
pub use laws::{empty_projects_have_two_lines, pages_have_their_lines, plain_pages_are_files};
