//! What a run is, in definitions alone: what an Engine may answer, what was seen, the plan, legal and final
//! journals, conditions, status and printed words, the worlds of a journal, exactness, and runs that were cut.
//! The crates of a run cite them in their contracts; the laws of them, and whole journals worked out, are `run_laws`.
#![tactic(auto)]

mod verdict;

pub use verdict::Verdict;
