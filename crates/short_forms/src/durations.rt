ghost use Rattle.std.specs.Prelude.{◌≡◌, ◌∷◌, ◌+◌, ◌*◌, ◌<◌, ◌≤◌, ◌&&◌, ◌==◌, not, IfSome, IsTrue, length, take, drop};
ghost use Rattle.std.specs.Char.{is_ascii_digit};
ghost use Rattle.std.specs.List.{list_all, prefix_len};
ghost use Rattle.std.specs.Option.{option_and_then, option_map};
ghost use Rattle.short_forms.specs.Answers.{answer_of};
ghost use Rattle.short_forms.specs.Digits.{digit_runs, is_number, scaled};
ghost use Rattle.short_forms.specs.Durations.{amount_of, amounts, duration_of, is_of_number, parts_in, sum_of, unit_micros, whole_micros};
ghost use Rattle.short_forms.specs.FixedPoint.{capped, parts_of};

use crate::digits::{digit_runs, number, padded};
use crate::fixed_point::FixedPoint;
use crate::form::{Form, FormRefusal};
use tree_base::Text;
use tree_base::limits::GREATEST_DURATION;

/// Digits of a fraction in the upper and in the lower half of a `Micros`.
const UPPER_PLACES: usize = 20;

const LOWER_PLACES: usize = 19;

const UPPER: u128 = 100_000_000_000_000_000_000;

const LOWER: u128 = 10_000_000_000_000_000_000;

/// The microseconds of a duration, as `1m30s`: numbers with a unit `h`, `m`, `s`, `ms` or `us`, added, or `0`
/// alone (Compose Specification, "Specifying durations"). A number has digits and at most one point with
/// digits after it. The sum is whole, and at most 9,000,000,000,000,000 microseconds. No memory.
pub fn duration(text: &Text) -> Result<u64, FormRefusal>
    ensures { result ≡ answer_of Form.Duration (duration_of text.now) }
{
    micros(text.as_str().as_bytes()).ok_or(FormRefusal::BadForm {
        which: Form::Duration,
    })
}

fn micros(text: &[u8]) -> Option<u64>
    ensures { result ≡ duration_of text.now }
{
    if let b"0" = text {
        Some(0)
    } else if text.is_empty() {
        None
    } else {
        sum(text)
    }
}

/// The whole microseconds of the sum of all amounts.
fn sum(text: &[u8]) -> Option<u64>
    ensures { result ≡ option_and_then whole_micros (sum_of (amounts text.now)) }
{
    let mut total = FixedPoint {
        whole: 0,
        upper: 0,
        lower: 0,
    };
    let mut rest = text;
    while !rest.is_empty() {
        let (amount, more) = rest.split_at(amount_len(rest));
        total = with_amount(&total, amount)?;
        rest = more;
    }
    whole_micros(&total)
}

/// The whole microseconds, where nothing is left beside them.
fn whole_micros(total: &FixedPoint) -> Option<u64>
    ensures { result ≡ whole_micros (parts_of total.now) }
{
    if total.upper == 0 && total.lower == 0 {
        Some(total.whole)
    } else {
        None
    }
}

/// How long the first amount is.
fn amount_len(text: &[u8]) -> usize
    requires { 0 < length text.now }
    ensures within { result ≤ length text.now }
    ensures some { 0 < result }
    ensures first { amounts text.now ≡ take result text.now ∷ amounts (drop result text.now) }
{
    for last in 0..text.len() - 1 {
        if ends_amount(text[last], text[last + 1]) {
            return last + 1;
        }
    }
    text.len()
}

/// Whether an amount ends between two bytes.
fn ends_amount(last: u8, next: u8) -> bool
    ensures { result ≡ (not (is_of_number last) && is_of_number next) }
{
    !is_of_number(last) && is_of_number(next)
}

fn is_of_number(b: u8) -> bool
    ensures { result ≡ is_of_number b }
{
    b.is_ascii_digit() || b == b'.'
}

/// The sum with one more amount.
fn with_amount(total: &FixedPoint, amount: &[u8]) -> Option<FixedPoint>
    ensures { option_map parts_of result ≡
        option_and_then (λ more. capped (parts_of total.now + more)) (amount_of amount.now) }
{
    let (number, unit) = amount.split_at(number_len(amount));
    let micros = unit_micros(unit)?;
    let number = read_number(number)?;
    plus(total, &number, micros)
}

fn number_len(text: &[u8]) -> usize
    ensures { result ≡ prefix_len is_of_number text.now }
{
    text.iter().take_while(|b| is_of_number(**b)).count()
}

/// A number with at most one point.
fn read_number(text: &[u8]) -> Option<FixedPoint>
    ensures { option_map parts_of result ≡
        option_and_then capped (option_and_then parts_in (digit_runs text.now)) }
{
    let (whole, fraction) = digit_runs(text)?;
    from_runs(whole, fraction)
}

/// The digits before and after a point as a number.
fn from_runs(whole: &[u8], fraction: &[u8]) -> Option<FixedPoint>
    requires whole { IsTrue (is_number whole.now) }
    requires fraction { IsTrue (list_all is_ascii_digit fraction.now) }
    ensures { option_map parts_of result ≡
        option_and_then capped (parts_in (whole.now, fraction.now)) }
{
    let (fraction, more) = fraction.split_at(fraction.len().min(UPPER_PLACES + LOWER_PLACES));
    if are_zeros(more) {
        fixed_point(whole, fraction)
    } else {
        None
    }
}

fn are_zeros(text: &[u8]) -> bool
    ensures { result ≡ list_all (λ b. b == 48) text.now }
{
    text.iter().all(|b| *b == b'0')
}

/// The digits before a point and at most 39 digits after it as a number.
fn fixed_point(whole: &[u8], fraction: &[u8]) -> Option<FixedPoint>
    requires whole { IsTrue (is_number whole.now) }
    requires fraction { IsTrue (list_all is_ascii_digit fraction.now) }
    requires few { length fraction.now ≤ 39 }
    ensures { option_map parts_of result ≡ capped (scaled 39 whole.now fraction.now) }
{
    let whole = number(whole, GREATEST_DURATION)?;
    let (upper, lower) = fraction.split_at(fraction.len().min(UPPER_PLACES));
    Some(FixedPoint {
        whole,
        upper: padded(upper, UPPER_PLACES),
        lower: padded(lower, LOWER_PLACES),
    })
}

/// A sum with a number of units.
fn plus(total: &FixedPoint, number: &FixedPoint, unit: u64) -> Option<FixedPoint>
    requires { unit ≤ 3600000000 }
    ensures { option_map parts_of result ≡
        capped (parts_of total.now + parts_of number.now * unit) }
{
    let unit = u128::from(unit);
    let lower = total.lower + number.lower * unit;
    let upper = total.upper + number.upper * unit + lower / LOWER;
    let whole = u128::from(total.whole) + u128::from(number.whole) * unit + upper / UPPER;
    if whole > u128::from(GREATEST_DURATION) {
        return None;
    }
    Some(FixedPoint {
        whole: whole as u64,
        upper: upper % UPPER,
        lower: lower % LOWER,
    })
}

/// The microseconds of a unit.
fn unit_micros(unit: &[u8]) -> Option<u64>
    ensures value { result ≡ unit_micros unit.now }
    ensures range { IfSome result (λ micros. (1 ≤ micros) × (micros ≤ 3600000000)) }
{
    match unit {
        b"h" => Some(3_600_000_000),
        b"m" => Some(60_000_000),
        b"s" => Some(1_000_000),
        b"ms" => Some(1_000),
        b"us" => Some(1),
        _ => None,
    }
}
