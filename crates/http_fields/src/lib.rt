//! What the header fields of a response's head say of its body (RFC 9112, section 6): the framing and the coding of the
//! content, or their fault, by the spans that `httparse` answers. The answer is that of the definitions in `response_rules`.
#![tactic(auto)]

mod fields;

pub use fields::{Framing, framing_or_fault};
