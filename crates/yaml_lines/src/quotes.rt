ghost use Rattle.std.specs.Prelude.{◌≡◌, ◌≤◌, ◌<◌, ◌+◌, length, drop, IfOk, IfSome};
ghost use Rattle.yaml_lines.specs.Answers.{Gives};
ghost use Rattle.yaml_lines.specs.Quoted.{single_of, double_of, behind_quote, quoted_of, quoted_at};
ghost use Rattle.yaml_lines.specs.Rows.{row_of};
ghost use Rattle.yaml_lines.specs.Spelling.{spelled};

use crate::escape::escaped_char;
use crate::lines::Line;
use crate::refusal::{YamlFault, YamlRefusal};
use crate::row::{place_in, row_of, text_at};
use std::alloc::Global;
use tree_base::{Memory, Text};

/// The text in single quotes that goes on here, and how many characters spell it with the closing quote.
fn single(alloc: Global, chars: &[char]) -> Result<Option<(Text, usize)>, Memory>
    ensures is { IfOk result (λ read. read ≡ spelled (single_of chars.now)) }
    ensures within { IfOk result (λ read. IfSome read (λ p. p.1 ≤ length chars.now)) }
{
    let mut text = Text::new(alloc);
    let mut at = 0;
    while at < chars.len() {
        let c = chars[at];
        if c == '\n' {
            return Ok(None);
        }
        if c == '\'' {
            if at + 1 < chars.len() && chars[at + 1] == '\'' {
                text.push('\'')?;
                at += 2;
            } else {
                return Ok(Some((text, at + 1)));
            }
        } else {
            text.push(c)?;
            at += 1;
        }
    }
    Ok(None)
}

/// The text in double quotes that goes on here, and how many characters spell it with the closing quote.
fn double(alloc: Global, chars: &[char]) -> Result<Option<(Text, usize)>, Memory>
    ensures is { IfOk result (λ read. read ≡ spelled (double_of 0 chars.now)) }
    ensures within { IfOk result (λ read. IfSome read (λ p. p.1 ≤ length chars.now)) }
{
    let mut text = Text::new(alloc);
    let mut at = 0;
    while at < chars.len() {
        let c = chars[at];
        if c == '"' {
            return Ok(Some((text, at + 1)));
        }
        if c == '\n' {
            return Ok(None);
        }
        if c == '\\' {
            match escaped_char(&chars[at + 1..]) {
                None => return Ok(None),
                Some((d, len)) => {
                    text.push(d)?;
                    at += len + 1;
                }
            }
        } else {
            text.push(c)?;
            at += 1;
        }
    }
    Ok(None)
}

/// What goes on behind a character that may be an opening quote.
fn behind_quote(alloc: Global, quote: char, rest: &[char]) -> Result<Option<(Text, usize)>, Memory>
    ensures is { IfOk result (λ read. read ≡ spelled (behind_quote quote rest.now)) }
    ensures within { IfOk result (λ read. IfSome read (λ p. p.1 ≤ length rest.now)) }
{
    match quote {
        '\'' => single(alloc, rest),
        '"' => double(alloc, rest),
        _ => Ok(None),
    }
}

/// The text of the scalar in quotes that begins here, and how many characters spell it with its quotes. None
/// exactly where no quote stands here, or the scalar has an escape that isn't known or isn't closed on its
/// line.
pub fn quoted_scalar(alloc: Global, chars: &[char]) -> Result<Option<(Text, usize)>, Memory>
    ensures is { IfOk result (λ read. read ≡ spelled (quoted_of chars.now)) }
    ensures within { IfOk result (λ read. IfSome read (λ p. p.1 ≤ length chars.now)) }
{
    match chars {
        [] => Ok(None),
        [quote, rest @ ..] => match behind_quote(alloc, *quote, rest)? {
            None => Ok(None),
            Some((text, len)) => Ok(Some((text, len + 1))),
        },
    }
}

/// The text of the scalar in quotes at a character of a line, counted from 0, and the place of the character
/// behind it. Refuses BadScalar at `at` where no quote stands there, or the scalar has an escape that isn't
/// known or isn't closed on its line.
pub fn quoted(
    alloc: Global,
    file: u32,
    line: &Line,
    at: usize,
) -> Result<(Text, usize), YamlRefusal>
    ensures { Gives result (quoted_at file (row_of line.now) at) }
{
    let row = row_of(alloc, line)?;
    match quoted_scalar(alloc, text_at(&row, at))? {
        Some((text, len)) => Ok((text, at + len)),
        None => Err(YamlRefusal::Bad {
            which: YamlFault::BadScalar,
            place: place_in(file, &row, at),
        }),
    }
}
