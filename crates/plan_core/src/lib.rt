//! The plan of a run: which actions bring the containers of a project from what an observation saw to what the
//! project declares, or take them down, in which order they are numbered, and which ones each of them needs.
//!
//! Contracts say that the plan is the defined one, action by action, for any declared set and anything seen; that
//! it is refused exactly where it has more actions than a run takes; and which container each slot keeps. The index by which
//! slots and containers find one another is given out for the ledger's start.
#![tactic(auto)]

mod finding;
mod keeping;
mod kinds;
mod laws;
mod needed;
mod planner;
mod plans;
mod refusal;
mod slot_texts;
mod text_index;
mod wanted;

pub use keeping::texts_under;
pub use laws::plans_are_orderly;
pub use plans::{plan_down, plan_up};
pub use refusal::PlanRefusal;
pub use slot_texts::{container_text, texts_of_slots};
pub use text_index::TextIndex;
