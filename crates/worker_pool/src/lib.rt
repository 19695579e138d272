//! Workers that share the ledger of a run, each with a hand of its own and in a thread of its own: each works in turns, from the
//! observation on until the ledger lets it leave, and makes its exchanges outside any turn.
//!
//! The contract of `work_together` says that the journal stays legal and that its run is over, that each worker has left, and that
//! its hand made exactly the worker's exchanges of the journal, in whatever order the workers' turns came, and looked and read its
//! clock as the worker's entries say. The contract of `work` says it of one worker, for whatever others enter between. Whether
//! turns come isn't said: who takes turns may wait.
#![tactic(auto)]

mod crew;
mod deeds;
mod members;
mod together;
mod worker;

pub use members::{Member, work_all};
pub use together::{Together, work_together};
pub use worker::work;
