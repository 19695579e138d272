//! Laws of responses: bytes that begin with a whole response aren't broken in any way, and begin with no other. Nothing in
//! this crate runs.
#![tactic(auto)]

mod laws;

pub use laws::{replies_are_not_broken, responses_are_one, whole_is_not_broken};
