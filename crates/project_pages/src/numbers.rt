ghost use Rattle.std.specs.Prelude.{◌≡◌, ◌++◌, ◌+◌, ◌^◌, ◌<◌, ◌≤◌, IfOk, OnOk};
ghost use Rattle.std.specs.Fmt.{decimal, signed_decimal};
ghost use Rattle.short_forms.specs.Printed.{amount_text, decimal_text, duration_text, fraction_text};

use std::alloc::Global;
use tree_base::{Memory, Text};

const BILLION: u64 = 1_000_000_000;

/// A number in decimal digits.
pub(crate) fn number_text(alloc: Global, number: u64) -> Result<Text, Memory>
    ensures { IfOk result (λ text. text ≡ decimal number) }
{
    let text = format!(in alloc; "{number}")?;
    Ok(Text::from_string(text))
}

/// A number in decimal digits, behind its sign where it is less than zero.
pub(crate) fn signed_text(alloc: Global, number: i64) -> Result<Text, Memory>
    ensures { IfOk result (λ text. text ≡ signed_decimal number) }
{
    let text = format!(in alloc; "{number}")?;
    Ok(Text::from_string(text))
}

/// A duration in microseconds by its units, as `1m30s`.
pub(crate) fn duration_text(alloc: Global, micros: u64) -> Result<Text, Memory>
    ensures { IfOk result (λ text. text ≡ duration_text micros) }
{
    if micros == 0 {
        return Text::from_str(alloc, "0s");
    }
    let mut text = Text::new(alloc);
    put_amount(alloc, &mut text, micros / 3_600_000_000, "h")?;
    put_amount(alloc, &mut text, micros % 3_600_000_000 / 60_000_000, "m")?;
    put_amount(alloc, &mut text, micros % 60_000_000 / 1_000_000, "s")?;
    put_amount(alloc, &mut text, micros % 1_000_000 / 1_000, "ms")?;
    put_amount(alloc, &mut text, micros % 1_000, "us")?;
    Ok(text)
}

/// Puts a number and its unit last, where the number isn't zero.
fn put_amount(alloc: Global, text: &mut Text, count: u64, unit: &str) -> Result<(), Memory>
    ensures { OnOk result (text.new ≡ text.old ++ amount_text count unit.now) }
{
    if count == 0 {
        return Ok(());
    }
    let number = number_text(alloc, count)?;
    text.push_str(number.as_str())?;
    text.push_str(unit)
}

/// A decimal in billionths, as `0.5`.
pub(crate) fn decimal_text(alloc: Global, billionths: u64) -> Result<Text, Memory>
    ensures { IfOk result (λ text. text ≡ decimal_text billionths) }
{
    let mut text = number_text(alloc, billionths / BILLION)?;
    let parts = billionths % BILLION;
    if parts != 0 {
        text.push('.')?;
        put_fraction(&mut text, 9, parts)?;
    }
    Ok(text)
}

/// Puts as many places of a fraction last, but for zeros at its end.
fn put_fraction(text: &mut Text, places: u32, parts: u64) -> Result<(), Memory>
    requires few { places ≤ 9 }
    requires within { parts < 10 ^ places }
    ensures { OnOk result (text.new ≡ text.old ++ fraction_text places parts) }
{
    if parts == 0 {
        return Ok(());
    }
    let unit = 10u64.pow(places - 1);
    text.push(digit((parts / unit) as u8))?;
    put_fraction(text, places - 1, parts % unit)
}

/// A decimal digit.
fn digit(value: u8) -> char
    requires { value < 10 }
    ensures { result ≡ 48 + value }
{
    (b'0' + value) as char
}
