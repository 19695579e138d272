//! Hands that share an Engine in memory and meet: in its first create each of them waits for the first creates of the others to begin.
//! So a run goes on in time only where its workers are at work at the same time. Tests of several workers are made with them.
//!
//! A `MeetingHand` is in all that it tells the `SharedHand` that it is made of, and a `MeetingPlug` the `SharedPlug`. A `Meeting` says
//! how many hands are to come, and whose worker is asked to stop behind its create, while the others are in theirs. That all met
//! is no clause: who waited in vain notes it, and the plug says so.
#![tactic(auto)]

mod meeting;
mod meeting_hand;
mod meeting_plug;
mod used_name;

pub use meeting::Meeting;
pub use meeting_hand::MeetingHand;
pub use meeting_plug::MeetingPlug;
pub use used_name::use_name;
