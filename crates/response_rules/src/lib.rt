//! What bytes that were read of a connection are: a response of HTTP/1.1 (RFC 9112) with the reply
//! that it gives to a request of the Docker Engine API, or no response, in one of the ways that the
//! causes of a lost exchange name.
//!
//! Definitions alone, with worked examples as laws. Nothing in this crate runs.
#![tactic(auto)]

mod examples;
mod laws;

pub use examples::{
    chunked_error_is_told, cut_body_is_ended, no_content_is_done, nothing_is_ended,
    other_body_is_bad, other_chunk_end_is_malformed, two_framings_are_malformed,
    values_are_counted,
};
pub use laws::ended_only_at_the_end;
