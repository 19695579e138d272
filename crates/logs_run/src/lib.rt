//! The logs of a project's containers: hand 0 lists the containers, and workers, each with a hand and in a thread of its own, ask
//! what those of their slots wrote, cut the replies into lines, part by part, and add these to one book.
//!
//! The contract of `logs_run` says what each hand did, for any answers and whatever the order of turns; which entries the book has of
//! each reply; and what the call is refused with: the refusal of the least slot that has one, then that of a full book. Two laws turn
//! entries into lines: those of a container are, side by side, the lines of its reply, in order, each once, and there are no others.
//! The call may wait, and want of memory is free.
#![tactic(auto)]

mod adding;
mod crew;
mod ending;
mod fetching;
mod laws;
mod listing;
mod logged;
mod tasks;
mod whole_run;

pub use laws::{lines_are_the_replys, no_other_lines};
pub use logged::Logged;
pub use whole_run::logs_run;
