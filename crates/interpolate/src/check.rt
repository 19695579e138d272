ghost use Rattle.std.specs.Prelude.{◌≡◌, ◌≢◌, [], ◌<◌, ◌≤◌, ◌+◌, ◌^◌, length, IfOk};
ghost use Rattle.std.specs.Str.{IsCharBoundary};
ghost use Rattle.interpolate.specs.Heads.{IsClosed, own};
ghost use Rattle.interpolate.specs.Parts.{place, parts, sound_len, first_len};

use crate::part::{Head, first_head, tail_start};
use crate::piece::rest_from;
use crate::refusal::SubstRefusal;
use crate::scan::ends;
use tree_base::limits::GREATEST_PLACE;

/// A place as a `u32`, where one past the greatest is that.
pub fn place(at: usize) -> u32
    ensures { result ≡ place at }
{
    at.min(GREATEST_PLACE) as u32
}

/// Whether each `$` of a text is well formed, those of tails too; else the first that isn't. A text that stands in a
/// form ends at the form's `}`: the result is how long it is.
#[cycle(check)]
pub fn check(text: &str, at: usize, levels: u32, inside: bool) -> Result<usize, SubstRefusal>
    requires place { at + length text.now < 2 ^ 64 }
    requires closed { IsClosed inside text.now }
    ensures is { result ≡ sound_len (parts levels at (own inside text.now))
        (length (own inside text.now)) }
    ensures len { IfOk result (λ len. len ≡ length (own inside text.now)) }
{
    let mut at = at;
    let mut len = 0;
    let mut rest = text;
    while !ends(rest, inside) {
        let more = check_part(rest, at, levels, inside)?;
        at += more;
        len += more;
        rest = rest_from(rest, more);
    }
    Ok(len)
}

/// The length of the first part, where it is well formed.
#[cycle(check)]
fn check_part(text: &str, at: usize, levels: u32, inside: bool) -> Result<usize, SubstRefusal>
    requires some { own inside text.now ≢ [] }
    requires place { at + length text.now < 2 ^ 64 }
    requires closed { IsClosed inside text.now }
    ensures is { result ≡ first_len levels at (own inside text.now) }
    ensures cut { IfOk result (λ len. (0 < len) × IsCharBoundary text.now len) }
{
    match first_head(text, levels, inside) {
        Head::Literal { len } => Ok(len),
        Head::Dollar => Ok(2),
        Head::Name { len } => Ok(len + 1),
        Head::Value { len } => Ok(len + 3),
        Head::Form {
            name,
            colon,
            action: _,
        } => {
            let start = tail_start(name, colon);
            let tail = check(rest_from(text, start), at + start, levels - 1, true)?;
            Ok(start + tail + 1)
        }
        Head::Unclosed => Err(SubstRefusal::Unclosed { at: place(at) }),
        Head::Wrong => Err(SubstRefusal::BadForm { at: place(at) }),
    }
}
