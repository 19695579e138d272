//! Env files: the variables that lines of `KEY=value` give, read as the Compose Specification's tools read them.
//!
//! Lines are read in order. A value sees the outer variables first and then the lines before it, and a later line
//! with the same key wins. The contract says of each file which variables it gives, in order, or which refusal of
//! which line comes first. Only want of memory is free.
#![tactic(auto)]

mod file;
mod given;
mod laws;
mod line;
mod quote;
mod refusal;
mod scan;

pub use file::read_env;
pub use laws::{double_quotes_read_back, later_line_wins};
pub use refusal::EnvRefusal;
