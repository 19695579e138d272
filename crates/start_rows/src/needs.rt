ghost use Rattle.std.specs.Prelude.{◌≡◌, ◌<◌, IfOk};

use tree_base::Memory;

/// The least number that 31 bits don't hold.
const HALF: usize = 2_147_483_648;

/// A count as a row keeps it; there is no room for a greater one.
pub(crate) fn small(count: usize) -> Result<u32, Memory>
    ensures same { IfOk result (λ number. number ≡ count) }
    ensures few { IfOk result (λ number. number < 2147483648) }
{
    if count < HALF {
        Ok(count as u32)
    } else {
        Err(Memory)
    }
}
