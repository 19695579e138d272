//! Where the head of a response of HTTP/1.1 ends, a chunk line, or the lines behind a last chunk, however their bytes are
//! cut (RFC 9112): each byte is looked at once, and the answer is exactly that of the definitions in `response_rules`.
#![tactic(auto)]

mod chunk_line_search;
mod line_search;

pub use chunk_line_search::ChunkLineSearch;
pub use line_search::{LineSearch, SearchAnswer};
