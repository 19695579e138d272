//! The top call of `compose`: from the words of the command line to the exit status, with several workers, each in a thread of its
//! own, and with runs that are made again.
//!
//! `compose_main` does what the words ask for. Where its run ended since a create was refused whose name is used, a hand looks whether
//! what that create would have made is there by now, and where it is, the run is made again, once for each container, network or
//! volume at most. Its contract says all that the one of `compose_cli::serial_main` says but for what is told of a lone hand's Engine:
//! when it is refused and how, that a refused project sends nothing, which page `config` prints; and of a project that was
//! run, of one and the same task in all of this: how many runs there were, what each one ended with and what it left, which hands
//! were dialled for it and what these told in the end, what was looked for between, that the reports stand in order, and that
//! status and refusal are those of the last run, with its line. `run_again` is the same from what is declared on, without a line.
#![tactic(auto)]

mod again;
mod attempt;
mod dialling;
mod following;
mod looking;
mod once;
mod running;
mod together;
mod top;

pub use again::run_again;
pub use attempt::{Attempt, Attempts};
pub use top::compose_main;
