//! The bytes of a request to the Docker Engine API v1.43 over HTTP/1.1 (RFC 9112), with the body that goes with it; and those of the
//! request for a stream of events.
//!
//! The contracts pin the bytes exactly: request line, header lines and body. Want of memory is the one refusal.
#![tactic(auto)]

mod escaping;
mod events;
mod fields;
mod images;
mod laws;
mod method;
mod paths;
mod queries;
mod request;

pub use events::events_bytes;
pub use laws::bytes_are_one_request;
pub use method::Method;
pub use request::request_with;
