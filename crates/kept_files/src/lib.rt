//! Files that keep what is read of others, so that it can be looked at once more behind a call.
//!
//! They are in all what the files under them are: the contract's members are theirs. What is kept are the bytes that a read gave,
//! under its path. Where memory is wanted for a copy, and where a path gives other bytes when it is read again, as a pipe does,
//! nothing is kept any more, and each read answers as it would without.
#![tactic(auto)]

mod kept_files;

pub use kept_files::{Kept, KeptFiles};
