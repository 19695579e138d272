ghost use Rattle.std.specs.Prelude.{◌≡◌, IsTrue};
ghost use Rattle.std.specs.Char.{is_ascii_digit};
ghost use Rattle.std.specs.List.{list_all};
ghost use Rattle.short_forms.specs.Answers.{answer_of};
ghost use Rattle.short_forms.specs.Digits.{is_number};
ghost use Rattle.short_forms.specs.Decimals.{billionths_in, decimal_of};

use crate::digits::{digit_runs, number, padded};
use crate::form::{Form, FormRefusal};
use tree_base::Text;
use tree_base::limits::GREATEST_DECIMAL;

const PLACES: usize = 9;

const BILLION: u64 = 1_000_000_000;

/// A decimal in billionths, as `0.5`: digits, and at most nine digits after a point.
/// At most 9,000,000,000,000,000,000 billionths. No memory.
pub fn decimal(text: &Text) -> Result<u64, FormRefusal>
    ensures { result ≡ answer_of Form.Decimal (decimal_of text.now) }
{
    billionths(text.as_str().as_bytes()).ok_or(FormRefusal::BadForm {
        which: Form::Decimal,
    })
}

fn billionths(text: &[u8]) -> Option<u64>
    ensures { result ≡ decimal_of text.now }
{
    let (whole, fraction) = digit_runs(text)?;
    from_runs(whole, fraction)
}

/// The digits before and after a point in billionths.
fn from_runs(whole: &[u8], fraction: &[u8]) -> Option<u64>
    requires whole { IsTrue (is_number whole.now) }
    requires fraction { IsTrue (list_all is_ascii_digit fraction.now) }
    ensures { result ≡ billionths_in (whole.now, fraction.now) }
{
    if fraction.len() > PLACES {
        return None;
    }
    let whole = number(whole, GREATEST_DECIMAL / BILLION)?;
    let sum = u128::from(whole) * u128::from(BILLION) + padded(fraction, PLACES);
    if sum <= u128::from(GREATEST_DECIMAL) {
        Some(sum as u64)
    } else {
        None
    }
}
