ghost use Rattle.std.specs.Prelude.{◌≡◌, IfOk};

use crate::reply::Reply;
use crate::request::Request;
use std::alloc::Global;
use tree_base::{Memory, TryCopy};

/// A request with what came of it.
#[derive(Drop)]
pub struct Exchange {
    pub request: Request,
    pub outcome: Outcome,
}

/// What came of a request. After Lost or Memory it may have taken effect.
#[derive(Drop)]
pub enum Outcome {
    Answered(Reply),
    Lost(WireEnd),
    NotSent,
    Memory,
}

impl TryCopy for Outcome {
    fn copy(&self, alloc: Global) -> Result<Outcome, Memory> {
        match self {
            Outcome::Answered(reply) => Ok(Outcome::Answered(reply.copy(alloc)?)),
            Outcome::Lost(cause) => Ok(Outcome::Lost(*cause)),
            Outcome::NotSent => Ok(Outcome::NotSent),
            Outcome::Memory => Ok(Outcome::Memory),
        }
    }
}

/// Why a response is none.
#[derive(Clone, Copy, PartialEq, Eq)]
pub enum WireEnd {
    Fault,
    Ended,
    /// `at` counts the bytes read before the wrong head, chunk line or trailer.
    Malformed { at: u64 },
    Encoded,
    TooLarge,
    BadBody,
}
