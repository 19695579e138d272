//! Cases of whole calls: the top call of `compose_cli` on files, sinks and an Engine in memory, alone or one call after
//! another, the loading of several files, and what stands outside of a call: files, sinks, lines of refusals, hands,
//! clocks and plugs.
//!
//! `inputs_of` knows the calls and their inputs, and `answer` makes the call of a case.
#![tactic(auto)]

mod call_answers;
mod dials;
mod engines;
mod files;
mod hands;
mod kinds;
mod lines;
mod load_files;
mod piece_sink;
mod scene;
mod sinks;
mod stage;
mod whole_call;
mod whole_calls;

pub use kinds::{answer, inputs_of};
