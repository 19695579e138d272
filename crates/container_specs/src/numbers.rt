ghost use Rattle.std.specs.Prelude.{◌≡◌};
ghost use Rattle.std.specs.Option.{option_map};
ghost use Rattle.container_specs.specs.Numbers.{nanoseconds, seconds, signed};

use tree_base::limits::GREATEST_NUMBER;

/// A number of 64 bits with a sign, the greatest where the number is above that. No memory.
pub(crate) fn signed(number: u64) -> i64
    ensures { result ≡ signed number }
{
    number.min(GREATEST_NUMBER) as i64
}

/// Such a number, where there is one. No memory.
pub(crate) fn signed_option(number: Option<u64>) -> Option<i64>
    ensures { result ≡ option_map signed number }
{
    match number {
        Some(number) => Some(signed(number)),
        None => None,
    }
}

/// Microseconds as nanoseconds, where there are any. No memory.
pub(crate) fn nanoseconds(micros: Option<u64>) -> Option<i64>
    ensures { result ≡ option_map nanoseconds micros }
{
    match micros {
        Some(micros) => Some(signed(micros.saturating_mul(1_000))),
        None => None,
    }
}

/// Microseconds as whole seconds, rounded up, where there are any. No memory.
pub(crate) fn seconds(micros: Option<u64>) -> Option<i64>
    ensures { result ≡ option_map seconds micros }
{
    match micros {
        Some(micros) => Some(signed(micros.div_ceil(1_000_000))),
        None => None,
    }
}
