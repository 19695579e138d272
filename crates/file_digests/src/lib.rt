//! The digests of the files of a project's configs and secrets.
//!
//! The contract of `digests` says what it answers by what the reads of the files answered, item by item: a digest for each file
//! that is there and within the limit, or the refusal of the first that isn't. A read that failed is told only where the count of
//! faults rose.
#![tactic(auto)]

mod empty;
mod reading;
mod refusal;

pub use empty::empty_digests;
pub use reading::digests;
pub use refusal::DigestRefusal;
