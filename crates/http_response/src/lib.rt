//! Reading a response of HTTP/1.1 (RFC 9112) from a connection, however its bytes are cut.
//!
//! The contract says that the bytes that were read begin with the response that is answered, or are none in the way
//! that the cause names: by the definitions of `response_rules`, which the hands' contract cites too.
#![tactic(auto)]

mod body;
mod chunks;
mod heads;
mod response;
mod stock;

pub use body::{OpenBody, open_response, read_response};
pub use response::{Response, ResponseEnd};
