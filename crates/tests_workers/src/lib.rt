//! Tests of runs of several workers that cases can't say as data: hands that meet in their first create, so that all work at the same
//! time; and a worker that is asked to stop, and one whose create is refused, while the other is at work. The crate gives out
//! nothing.
#![tactic(auto)]

#[cfg(test)]
mod declared;
#[cfg(test)]
mod journals;
#[cfg(test)]
mod runs;
#[cfg(test)]
mod together;
