ghost use Rattle.std.specs.Prelude.{◌≡◌};
ghost use Rattle.wait_run.specs.Ends.{refusal_status};

use engine_types::{Condition, Outcome, Report, Request, StreamFault};
use run_lookups::{outcome_status, stream_status};
use tree_base::{Memory, Text};

/// Why a wait ended otherwise than with all goals met.
#[derive(Drop)]
pub enum WaitRefusal {
    /// A slot has no container; the first of these slots.
    NotThere {
        slot: Text,
    },
    /// The stream of events ended before.
    Stream(StreamFault),
    /// An exchange had another answer than was asked for.
    Request {
        request: Request,
        outcome: Outcome,
    },
    /// A goal has failed, with the first report that shows it.
    Condition {
        slot: Text,
        condition: Condition,
        report: Report,
    },
    /// Memory was wanted.
    Memory,
}

impl WaitRefusal {
    /// Its exit status. No memory.
    pub fn status(&self) -> u8
        ensures { result ≡ refusal_status self.now }
    {
        match self {
            WaitRefusal::NotThere { .. } => 3,
            WaitRefusal::Stream(fault) => stream_status(*fault),
            WaitRefusal::Request { outcome, .. } => outcome_status(outcome),
            WaitRefusal::Condition { .. } => 4,
            WaitRefusal::Memory => 9,
        }
    }
}

impl From<Memory> for WaitRefusal {
    ghost use Rattle.std.specs.Prelude.{◌≡◌};
    ghost use Rattle.wait_run.specs.declared.refusal.WaitRefusal.{WaitRefusal};

    ghost from_gives = { λ _ refusal. refusal ≡ WaitRefusal.Memory };

    fn from(_: Memory) -> WaitRefusal {
        WaitRefusal::Memory
    }
}
