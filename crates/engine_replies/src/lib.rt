//! The bytes of the replies of the Docker Engine API v1.43, as a server writes them: status line, header lines and body (RFC
//! 9112), the body as JSON (RFC 8259).
//!
//! `reply_bytes` is exact by tables of members. Want of memory is the one refusal. Two laws stand on its definitions: what is
//! written is a whole response, and is read as the reply.
#![tactic(auto)]

mod bodies;
mod laws;
mod mappings;
mod objects;
mod response;
mod rows;
mod values;
mod words;

pub use laws::{replies_are_whole, replies_read_back};
pub use response::reply_bytes;
