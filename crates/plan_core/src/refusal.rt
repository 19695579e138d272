use std::error::Error;
use std::fmt;
use tree_base::Memory;

/// Why there is no plan.
#[derive(Debug, Drop, Clone, Copy, PartialEq, Eq)]
pub enum PlanRefusal {
    /// The plan has more actions than a run takes. A count past 64 bits is the greatest of 64 bits.
    TooManyActions { count: u64 },
    /// Memory was wanted.
    Memory,
}

impl From<Memory> for PlanRefusal {
    ghost use Rattle.std.specs.Prelude.{◌≡◌};
    ghost use Rattle.plan_core.specs.declared.refusal.PlanRefusal.{PlanRefusal};

    ghost from_gives = { λ _ refusal. refusal ≡ PlanRefusal.Memory };

    fn from(_: Memory) -> PlanRefusal {
        PlanRefusal::Memory
    }
}

impl fmt::Display for PlanRefusal {
    fn fmt<W: fmt::Write>(&self, f: &mut fmt::Formatter<W>) -> fmt::Result {
        match self {
            PlanRefusal::TooManyActions { count } => write!(f, "{count} actions are too many"),
            PlanRefusal::Memory => write!(f, "memory"),
        }
    }
}

impl Error for PlanRefusal {}
