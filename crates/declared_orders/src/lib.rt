//! The laws of the order in which the slots of a project can be started.
//!
//! The contract of each function is a law of the declared set of every project, and nothing runs: its slots need only slots of services
//! that theirs depends on, they need no slot in a circle where no services do, and then the actions of each run can be carried out.
#![tactic(auto)]

mod laws;

pub use laws::{no_circle_is_declared, projects_can_be_run, slots_need_dependencies};
