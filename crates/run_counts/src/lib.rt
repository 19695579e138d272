//! What is counted of runs: how many actions were sent, how many of them ended well, how many containers were to be made; and the
//! lines that `simulate` prints of four runs. The contracts say each count by the journal or the log that it is of.
#![tactic(auto)]

mod counts;
mod lines;

pub use counts::{RunCounts, answered, creates, creates_logged, sent};
pub use lines::{Simulated, simulated_text};
