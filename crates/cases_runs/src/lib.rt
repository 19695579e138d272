//! The calls of the run side, as cases make them: the Engine in memory, plans, the end of a journal, whole runs of one
//! worker on an Engine in memory, exactness, labels, and refusals.
//!
//! `answer` makes the call of a case, whose further inputs `inputs_of` names, and puts what came of it.
#![tactic(auto)]

mod calls;
mod ending;
mod exactness;
mod labelled;
mod planning;
mod refused;
mod running;
mod serving;
mod values;
mod whole;

pub use calls::{answer, inputs_of};
