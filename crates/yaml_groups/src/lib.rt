//! The lines of a YAML text as they are read.
//!
//! Blank lines are left out, and the lines of a flow collection or a block scalar belong to the line in which it
//! begins. Nothing is refused here: what is wrong is refused where the line is read. `cut_len` tells where a flow
//! collection is cut.
#![tactic(auto)]

mod cut;
mod flow;
mod group;
mod head;
mod line;
mod queue;
mod scan;
mod token;

pub use cut::cut_len;
pub use group::grouped;
pub use line::LogicalLine;
