ghost use Rattle.std.specs.Prelude.{◌≡◌, ◌/◌, min};
ghost use Rattle.std.specs.Duration.{as_nanos};

use std::rt::Clock;
use std::time::Duration;

/// The milliseconds of the system's clock that never goes back; where that can't be read, the other ones. No memory.
pub fn milliseconds<R: Clock>(rt: &R, unread: u64) -> u64 {
    match rt.monotonic() {
        Ok(time) => milliseconds_of(time),
        Err(_) => unread,
    }
}

/// Whole milliseconds of a time, at most the greatest `u64`. No memory.
fn milliseconds_of(time: Duration) -> u64
    ensures { result ≡ min (as_nanos time / 1_000_000) 18446744073709551615 }
{
    u64::try_from(time.as_millis()).unwrap_or(u64::MAX)
}
