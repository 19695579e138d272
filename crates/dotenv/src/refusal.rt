ghost use Rattle.std.specs.Prelude.{◌≡◌};
ghost use Rattle.dotenv.specs.declared.refusal.EnvRefusal.TheVariants as refusals;
ghost use Rattle.dotenv.specs.declared.refusal.LineRefusal.TheVariants as line_refusals;

use interpolate::SubstRefusal;
use tree_base::Memory;

/// Why an env file isn't read. Lines count from 1, and one past the greatest `u32` is that.
#[derive(Drop)]
pub enum EnvRefusal {
    /// A line that isn't UTF-8, or is neither a key alone nor a key with a value.
    BadLine { line: u32 },
    /// A quote that isn't closed on its line, or has more behind it than spaces, tabs and a comment.
    BadQuote { line: u32 },
    /// A value that can't be substituted.
    Subst { line: u32, cause: SubstRefusal },
    /// A value with which the values of this line and of those before it have more than 16,777,216 bytes together once they are
    /// substituted, or the message of a variable that it requires.
    TooMuchText { line: u32 },
    Memory,
}

impl From<Memory> for EnvRefusal {
    ghost from_gives = { λ _ e. e ≡ refusals.Memory };

    fn from(_: Memory) -> EnvRefusal {
        EnvRefusal::Memory
    }
}

/// Why a line isn't read.
#[derive(Clone, Copy)]
pub enum LineRefusal {
    BadLine,
    BadQuote,
    Memory,
}

impl From<Memory> for LineRefusal {
    ghost from_gives = { λ _ e. e ≡ line_refusals.Memory };

    fn from(_: Memory) -> LineRefusal {
        LineRefusal::Memory
    }
}
