//! Tests of what an Engine streams: the frames and lines of a container's logs, its events however they are cut, and what reports
//! say of a goal. The crate gives out nothing.
#![tactic(auto)]

#[cfg(test)]
mod events;
#[cfg(test)]
mod goals;
#[cfg(test)]
mod laws;
#[cfg(test)]
mod logs;
