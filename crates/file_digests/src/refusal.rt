ghost use Rattle.std.specs.Prelude.{◌≡◌};
ghost use Rattle.file_digests.specs.declared.refusal.DigestRefusal.TheVariants as refusals;

use std::convert::From;
use tree_base::{Memory, Text};

/// Why there is no digest of a file.
#[derive(Drop)]
pub enum DigestRefusal {
    /// No file stands at the path.
    NotFound { path: Text },
    /// The file couldn't be read.
    ReadFault { path: Text },
    /// The file has more than 4,194,304 bytes.
    FileTooLarge { path: Text },
    /// There was no memory for it.
    Memory,
}

impl From<Memory> for DigestRefusal {
    ghost from_gives = { λ _ refusal. refusal ≡ refusals.Memory };

    fn from(_: Memory) -> DigestRefusal {
        DigestRefusal::Memory
    }
}
