//! Cases as data: a case is a mapping that names a call, its inputs and the answers that are wanted.
//!
//! `Case` gives the call of a case and compares what it answered with what is wanted. `Reading` reads its inputs (texts
//! may be built of parts) from `Fields`, `Answers` holds what came, and `Line` and `Lines` say values in words: each keeps that
//! something went wrong and goes on, so that what is read or said has one exit however many parts it has.
#![tactic(auto)]

mod answers;
mod built;
mod case;
mod case_fault;
mod fields;
mod line;
mod lines;
mod one_line;
mod reading;

pub use answers::Answers;
pub use case::Case;
pub use case_fault::CaseFault;
pub use fields::Fields;
pub use line::Line;
pub use lines::Lines;
pub use reading::Reading;
