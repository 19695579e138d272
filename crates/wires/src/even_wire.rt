ghost use Rattle.std.specs.Prelude.{◌≡◌, is_some};

use outside_api::{Pipe, Wire};

/// A wire that is as telling as its connections: it tells what was said on closed ones exactly where each of them tells what
/// is said on it. So what is told of a wire's past is never lost by closing a connection.
pub trait EvenWire: Wire {
    ghost even: { (wire : Self) (pipe : Self.P) → is_some (Self.past wire) ≡ is_some (Self.P.talk pipe) };
}
