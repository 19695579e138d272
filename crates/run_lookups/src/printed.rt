ghost use Rattle.std.specs.Prelude.{◌≡◌, ◌<◌, ◌++◌, false, IfOk, OnOk};
ghost use Rattle.std.specs.Char.{digit_char};
ghost use Rattle.std.specs.List.{list_any};
ghost use Rattle.std.specs.Str.{chars};
ghost use Rattle.run_model.specs.Shown.{escaped_control, is_control, shown, shown_char};

use std::alloc::Global;
use tree_base::{Memory, Text};

/// A text of an Engine as it is printed: each control character is written by its code, as `\u001b`. So none is left, and a
/// text without one stays.
pub fn shown(alloc: Global, text: &str) -> Result<Text, Memory>
    ensures text { IfOk result (λ t. t ≡ shown text.now) }
    ensures harmless { IfOk result (λ t. list_any is_control (chars t) ≡ false) }
    ensures same { list_any is_control (chars text.now) ≡ false
        → IfOk result (λ t. t ≡ text.now) }
{
    let mut out = Text::new(alloc);
    for c in text.chars() {
        put_shown(c, &mut out)?;
    }
    Ok(out)
}

/// Puts a character last, as it is printed.
fn put_shown(c: char, out: &mut Text) -> Result<(), Memory>
    ensures { OnOk result (out.new ≡ out.old ++ shown_char c) }
{
    match c {
        '\0'..='\x1F' | '\x7F'..='\u{9F}' => put_code(c as u8, out),
        _ => out.push(c),
    }
}

fn put_code(code: u8, out: &mut Text) -> Result<(), Memory>
    ensures { OnOk result (out.new ≡ out.old ++ escaped_control code) }
{
    out.push_str("\\u00")?;
    out.push(lower_digit(code / 16))?;
    out.push(lower_digit(code % 16))
}

/// A lower-case hexadecimal digit.
fn lower_digit(value: u8) -> char
    requires { value < 16 }
    ensures { result ≡ digit_char value }
{
    if value < 10 {
        (b'0' + value) as char
    } else {
        (b'a' + (value - 10)) as char
    }
}
