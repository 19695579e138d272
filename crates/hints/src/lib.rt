//! Hints: what the program may say in one more line behind the line of a refusal, so that whoever reads it knows where to look.
//!
//! A word of the command line that is none is told, with a known one near it, as is an attribute that is none; the name of a
//! container or network of which a request told the id, and who is still on a network; what is wrong with a socket. Contracts give
//! each text exactly, by what words, paths, requests and the exchanges of a run are. There is no hint where nothing is known.
#![tactic(auto)]

mod attributes;
mod line;
mod near;
mod requests;
mod sockets;
mod told;
mod words;

pub use attributes::attribute_hint;
pub use line::{hint_line, say_hint};
pub use requests::request_hint;
pub use sockets::{SocketState, socket_hint};
pub use words::word_hint;
