ghost use Rattle.std.specs.Prelude.{◌≡◌, ◌≤◌, IfSome};
ghost use Rattle.std.specs.Char.{is_ascii_digit};
ghost use Rattle.std.specs.List.{prefix_len};
ghost use Rattle.short_forms.specs.Answers.{answer_of};
ghost use Rattle.short_forms.specs.Sizes.{size_in, size_of, unit_bytes};

use crate::digits::number;
use crate::form::{Form, FormRefusal};
use tree_base::Text;
use tree_base::limits::GREATEST_NUMBER;

/// The bytes of a size, as `64m`: digits and at most one unit of `b`, `k`, `kb`, `m`, `mb`, `g`, `gb` in either
/// case, by 1,024 (Compose Specification, "Specifying byte values"). At most 9,223,372,036,854,775,807. No memory.
pub fn size(text: &Text) -> Result<u64, FormRefusal>
    ensures { result ≡ answer_of Form.Size (size_of text.now) }
{
    bytes_of(text.as_str().as_bytes()).ok_or(FormRefusal::BadForm { which: Form::Size })
}

fn bytes_of(text: &[u8]) -> Option<u64>
    ensures { result ≡ size_of text.now }
{
    let (digits, unit) = text.split_at(digits_len(text));
    let unit = unit_bytes(unit)?;
    times(digits, unit)
}

/// How many digits stand at the front.
fn digits_len(text: &[u8]) -> usize
    ensures { result ≡ prefix_len is_ascii_digit text.now }
{
    text.iter().take_while(|b| b.is_ascii_digit()).count()
}

/// A number of units in bytes.
fn times(digits: &[u8], unit: u64) -> Option<u64>
    requires { 1 ≤ unit }
    ensures { result ≡ size_in digits.now unit }
{
    let count = number(digits, GREATEST_NUMBER)?;
    let bytes = u128::from(count) * u128::from(unit);
    if bytes <= u128::from(GREATEST_NUMBER) {
        Some(bytes as u64)
    } else {
        None
    }
}

/// The bytes of a unit.
fn unit_bytes(unit: &[u8]) -> Option<u64>
    ensures value { result ≡ unit_bytes unit.now }
    ensures some { IfSome result (λ bytes. 1 ≤ bytes) }
{
    match unit {
        [] | [b'b' | b'B'] => Some(1),
        [b'k' | b'K'] | [b'k' | b'K', b'b' | b'B'] => Some(1 << 10),
        [b'm' | b'M'] | [b'm' | b'M', b'b' | b'B'] => Some(1 << 20),
        [b'g' | b'G'] | [b'g' | b'G', b'b' | b'B'] => Some(1 << 30),
        _ => None,
    }
}
