ghost use Rattle.std.specs.Prelude.{◌≡◌, ◌+◌, ◌-◌, ◌*◌, ◌^◌, ◌≤◌, IsTrue, IfSome, nat_le, length, if◌then◌else◌, Some, None};
ghost use Rattle.std.specs.Char.{IsAsciiDigit, digit_value, is_ascii_digit};
ghost use Rattle.std.specs.List.{list_all};
ghost use Rattle.std.specs.Option.{option_map};
ghost use Rattle.std.specs.Str.Parse.{digits_value};
ghost use Rattle.short_forms.specs.Digits.{is_number, number_up_to, digit_runs};

use crate::cuts::cut_bytes;

/// The number that one digit or more write, where it is at most `most`. No memory.
pub fn number(text: &[u8], most: u64) -> Option<u64>
    ensures { result ≡ number_up_to most text.now }
{
    if text.is_empty() {
        return None;
    }
    let mut value = 0;
    for digit in text {
        if !digit.is_ascii_digit() {
            return None;
        }
        value = with_digit(value, *digit, most)?;
    }
    Some(value)
}

/// A number with one more digit after its own, where that is at most `most`.
fn with_digit(value: u64, digit: u8, most: u64) -> Option<u64>
    requires { IsAsciiDigit digit }
    ensures { result ≡ (if nat_le (value * 10 + digit_value digit) most then Some
        (value * 10 + digit_value digit) else None) }
{
    let more = u128::from(value) * 10 + u128::from(digit_of(digit));
    if more <= u128::from(most) {
        Some(more as u64)
    } else {
        None
    }
}

/// Whether a text is one digit or more. No memory.
pub fn is_number(text: &[u8]) -> bool
    ensures { result ≡ is_number text.now }
{
    !text.is_empty() && are_digits(text)
}

/// Whether all bytes are digits.
fn are_digits(text: &[u8]) -> bool
    ensures { result ≡ list_all is_ascii_digit text.now }
{
    text.iter().all(|b| b.is_ascii_digit())
}

/// The digits before a point and those after it, of a number with at most one point. No memory.
pub fn digit_runs(text: &[u8]) -> Option<(&[u8], &[u8])>
    ensures runs { option_map (λ p. (p.0.now, p.1.now)) result ≡ digit_runs text.now }
    ensures whole { IfSome result (λ p. IsTrue (is_number p.0.now)) }
    ensures fraction { IfSome result (λ p. IsTrue (list_all is_ascii_digit p.1.now)) }
{
    match cut_bytes(text, b'.') {
        None => {
            if is_number(text) {
                Some((text, &[]))
            } else {
                None
            }
        }
        Some((whole, fraction)) => {
            if is_number(whole) && is_number(fraction) {
                Some((whole, fraction))
            } else {
                None
            }
        }
    }
}

/// The number that digits write, filled up by zeros to so many digits. No memory.
pub fn padded(digits: &[u8], places: usize) -> u128
    requires digits { IsTrue (list_all is_ascii_digit digits.now) }
    requires enough { length digits.now ≤ places }
    requires few { places ≤ 20 }
    ensures { result ≡ digits_value 10 digits.now * 10 ^ (places - length digits.now) }
{
    value(digits) * 10u128.pow((places - digits.len()) as u32)
}

/// The number that at most 20 digits write.
fn value(digits: &[u8]) -> u128
    requires digits { IsTrue (list_all is_ascii_digit digits.now) }
    requires few { length digits.now ≤ 20 }
    ensures { result ≡ digits_value 10 digits.now }
{
    let mut value = 0;
    for digit in digits {
        value = value * 10 + u128::from(digit_of(*digit));
    }
    value
}

/// The number that a digit writes.
fn digit_of(digit: u8) -> u8
    requires { IsAsciiDigit digit }
    ensures { result ≡ digit_value digit }
{
    digit - b'0'
}
