//! Laws as functions, which run nothing. The crate gives out nothing.
#![tactic(auto)]

#[cfg(test)]
mod laws;
