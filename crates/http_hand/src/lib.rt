//! The hand that speaks with an Engine over a wire, in HTTP/1.1 (RFC 9112).
//!
//! Each exchange opens one connection at most, writes the request's bytes on it, reads the response and closes it. The
//! contract says what each outcome has for its cause in what was written and read, and that nothing is sent twice.
#![tactic(auto)]

mod http_hand;
mod speaking;

pub use http_hand::HttpHand;
