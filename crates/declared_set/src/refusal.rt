ghost use Rattle.std.specs.Prelude.{◌≡◌};
ghost use Rattle.declared_set.specs.declared.refusal.IdentityRefusal.TheVariants as refusals;

use tree_base::{Memory, Text};

/// Why a project declares nothing.
#[derive(Drop)]
pub enum IdentityRefusal {
    /// `--scale` names a service that the project doesn't have.
    UnknownScale(Text),
    /// The slots have more than 4,000,000 needs together.
    TooManyNeeds(u64),
    /// Two slots have this name, the least of such.
    NameTwice(Text),
    /// Memory was wanted.
    Memory,
}

impl From<Memory> for IdentityRefusal {
    ghost from_gives = { λ _ refusal. refusal ≡ refusals.Memory };

    fn from(_: Memory) -> IdentityRefusal {
        IdentityRefusal::Memory
    }
}
