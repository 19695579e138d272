use engine_types::WireEnd;
use tree_base::{List, Memory};

/// A whole request: its method and its target as they are sent, and the bytes of its body.
#[derive(Drop)]
pub struct Received {
    pub method: List<u8>,
    pub target: List<u8>,
    pub body: List<u8>,
}

/// Why no request was read.
#[derive(Clone, Copy, PartialEq, Eq)]
pub enum RequestEnd {
    /// The connection failed, or what was read of it is no request in this way.
    Wire(WireEnd),
    Memory,
}

impl From<Memory> for RequestEnd {
    ghost use Rattle.std.specs.Prelude.{◌≡◌};
    ghost use Rattle.request_reading.specs.declared.received.RequestEnd.{RequestEnd};

    ghost from_gives = { λ _ end. end ≡ RequestEnd.Memory };

    fn from(_: Memory) -> RequestEnd {
        RequestEnd::Memory
    }
}
