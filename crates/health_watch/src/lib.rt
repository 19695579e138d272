//! What a report on a container says of a condition: the conditions of the Compose Specification's `depends_on`, and Running,
//! for which goals wait.
//!
//! The contract of `judge` says that each verdict is the defined one, for every condition and every report.
#![tactic(auto)]

mod verdicts;

pub use verdicts::{judge, report_of};
