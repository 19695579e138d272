//! Tests of calls of several workers that cases can't say as data: hands that meet in their first create, so that all work at the
//! same time; a worker that is asked to stop, and one whose create is refused, while the other is at work; a hand that looks for what
//! was refused; and a dial that fails behind others that went well. The crate gives out nothing.
#![tactic(auto)]

#[cfg(test)]
mod calls;
#[cfg(test)]
mod ends;
