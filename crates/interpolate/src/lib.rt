//! Substitution of variables in texts and trees, as in the Compose Specification's chapter on interpolation.
//!
//! A text is cut into parts: bytes that stand for themselves, `$$`, names, and braced forms whose tails are
//! cut again. Its value is the values of its parts, one after the other, of at most 16,777,216 bytes. The contracts
//! say of each text whether it has a value, which one, and else which refusal comes first. Only want of memory is free.
#![tactic(auto)]

mod check;
mod join;
mod laws;
mod part;
mod piece;
mod refusal;
mod scan;
mod text;
mod tree;
mod unchanged;

pub use laws::{doubled_comes_back, plain_stays};
pub use refusal::{SubstRefusal, SubstTreeRefusal};
pub use text::subst;
pub use tree::subst_tree;
