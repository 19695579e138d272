ghost use Rattle.std.specs.Prelude.{◌≡◌};
ghost use Rattle.attribute_types.specs.declared.refusal.AttributeRefusal.TheVariants as refusals;

use tree_base::{Memory, Path};

/// What is wrong with an attribute.
#[derive(Clone, Copy, Debug, PartialEq, Eq, Drop)]
pub enum Fault {
    /// No table has the name.
    UnknownAttribute,
    /// The tree has another kind, or isn't of the form of its kind.
    WrongKind,
    /// The kind is right, and the value isn't one that the attribute may have; or a value is wanting.
    BadValue,
}

/// Why attributes aren't read: what is wrong with the first one, and its path.
#[derive(Drop)]
pub enum AttributeRefusal {
    At { fault: Fault, path: Path },
    Memory,
}

impl From<Memory> for AttributeRefusal {
    ghost from_gives = { λ _ refusal. refusal ≡ refusals.Memory };

    fn from(_: Memory) -> AttributeRefusal {
        AttributeRefusal::Memory
    }
}
