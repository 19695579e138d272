//! Reading a request of HTTP/1.1 (RFC 9112) from a connection, however its bytes are cut: its method, its target and its body.
//!
//! The contract says that the bytes that were read begin with the request that is answered, or are none in the way that the cause
//! names.
#![tactic(auto)]

mod fields;
mod heads;
mod reading;
mod received;
mod stock;

pub use reading::read_request;
pub use received::{Received, RequestEnd};
