//! Laws of the bytes that an Engine is sent and sends: above the definitions alone, so that they hold of what the program writes
//! and reads. Nothing in this crate runs.
//!
//! The body of a request tells the description that it was made of. Bytes that were a whole response, or broken, before the
//! connection's end stay so whatever follows, and no bytes are broken in two ways.
#![tactic(auto)]

mod bodies;
mod broken;
mod differences;
mod examples;
mod parts;
mod responses;

pub use bodies::{bodies_say_exactly, requests_are_whole, tables_say_exactly};
pub use broken::{
    broken_gives_no_reply, broken_in_one_way, broken_stays, cuts_break_the_same, faults_stay,
};
pub use differences::{
    bodies_tell_connections, bodies_tell_containers, bodies_tell_networks, bodies_tell_volumes,
};
pub use examples::{
    other_chunk_line_is_malformed, other_version_is_malformed, spaced_trailer_is_malformed,
};
pub use parts::{chunk_lines_stay, heads_stay, trailers_stay};
pub use responses::{cuts_read_the_same, responses_stay, whole_stays_unbroken};
