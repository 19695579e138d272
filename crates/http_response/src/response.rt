use engine_types::WireEnd;
use tree_base::{List, Memory};

/// A whole response: its status, and the bytes of its body, without the lines of chunks.
#[derive(Drop)]
pub struct Response {
    pub status: u16,
    pub body: List<u8>,
}

/// Why no response was read.
#[derive(Clone, Copy, PartialEq, Eq)]
pub enum ResponseEnd {
    /// The connection failed, or what was read of it is no response in this way.
    Wire(WireEnd),
    Memory,
}

impl From<Memory> for ResponseEnd {
    ghost use Rattle.std.specs.Prelude.{◌≡◌};
    ghost use Rattle.http_response.specs.declared.response.ResponseEnd.{ResponseEnd};

    ghost from_gives = { λ _ end. end ≡ ResponseEnd.Memory };

    fn from(_: Memory) -> ResponseEnd {
        ResponseEnd::Memory
    }
}
