ghost use Rattle.std.specs.Prelude.{◌≡◌};
ghost use Rattle.file_paths.specs.declared.refusal.PathRefusal.TheVariants as refusals;

use tree_base::{Memory, Text};

/// Why a path isn't taken absolute.
#[derive(Drop)]
pub enum PathRefusal {
    /// The path begins at the home directory, and `HOME` is unset.
    NoHome { path: Text },
    Memory,
}

impl From<Memory> for PathRefusal {
    ghost from_gives = { λ _ refusal. refusal ≡ refusals.Memory };

    fn from(_: Memory) -> PathRefusal {
        PathRefusal::Memory
    }
}
