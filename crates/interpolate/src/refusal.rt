ghost use Rattle.std.specs.Prelude.{◌≡◌};
ghost use Rattle.interpolate.specs.declared.refusal.SubstRefusal.TheVariants as refusals;
ghost use Rattle.interpolate.specs.declared.refusal.SubstTreeRefusal.TheVariants as tree_refusals;

use tree_base::{Memory, Path, Text};

/// Why a text has no value. A place is a byte of the text, from 0, and one past the greatest `u32` is that.
#[derive(Drop)]
pub enum SubstRefusal {
    /// A `${` that no `}` closes.
    Unclosed { at: u32 },
    /// A `${` that is closed and is none of the forms, or stands in too many others.
    BadForm { at: u32 },
    /// A variable that a form requires is unset, or empty where the form counts that as unset.
    RequiredVariable { name: Text, message: Text },
    /// The value, or the message of such a form, has more than 16,777,216 bytes.
    TooMuchText,
    Memory,
}

impl From<Memory> for SubstRefusal {
    ghost from_gives = { λ _ e. e ≡ refusals.Memory };

    fn from(_: Memory) -> SubstRefusal {
        SubstRefusal::Memory
    }
}

/// Why the scalars of a tree aren't substituted.
#[derive(Drop)]
pub enum SubstTreeRefusal {
    /// The scalar at a path has no value.
    At { path: Path, cause: SubstRefusal },
    /// The keys and the scalars have more than 16,777,216 bytes together.
    TooMuchText,
    Memory,
}

impl From<Memory> for SubstTreeRefusal {
    ghost from_gives = { λ _ e. e ≡ tree_refusals.Memory };

    fn from(_: Memory) -> SubstTreeRefusal {
        SubstTreeRefusal::Memory
    }
}
