ghost use Rattle.std.specs.Prelude.{◌≡◌, ◌≤◌, length};
ghost use Rattle.dotenv.specs.Lines.{is_nothing, export_len, line_in, quoted_line, plain_line, value_line, after_key, key_line, line_of, LineGives};

use crate::quote::{Quote, quoted};
use crate::refusal::LineRefusal;
use crate::scan::{blanks_len, key_len, plain_len, text_of, trimmed};
use std::alloc::Global;
use tree_base::Text;

/// What a line of an env file says.
#[derive(Drop)]
pub enum Line {
    /// It is blank or a comment.
    Nothing,
    /// A key without a value.
    Alone { key: Text },
    /// A value that stays as it is.
    Literal { key: Text, value: Text },
    /// A value that is still to be substituted.
    Substituted { key: Text, value: Text },
}

/// Whether nothing stands here, or a comment.
fn is_nothing(chars: &[char]) -> bool
    ensures { result ≡ is_nothing chars.now }
{
    match chars {
        [] => true,
        [c, ..] => *c == '#',
    }
}

/// How many characters `export` takes with the spaces and tabs behind it, 0 where no key follows.
fn export_len(chars: &[char]) -> usize
    ensures is { result ≡ export_len chars.now }
    ensures within { result ≤ length chars.now }
{
    if !chars.starts_with(&['e', 'x', 'p', 'o', 'r', 't', ' ']) {
        return 0;
    }
    let (_, rest) = chars.split_at(7);
    let blanks = blanks_len(rest);
    let (_, rest) = rest.split_at(blanks);
    if key_len(rest) == 0 { 0 } else { blanks + 7 }
}

/// What a line says.
pub fn read_line(alloc: Global, chars: &[char]) -> Result<Line, LineRefusal>
    ensures { LineGives result (line_of chars.now) }
{
    let (_, body) = chars.split_at(blanks_len(chars));
    if is_nothing(body) {
        return Ok(Line::Nothing);
    }
    let (_, body) = body.split_at(export_len(body));
    key_line(alloc, body)
}

fn key_line(alloc: Global, chars: &[char]) -> Result<Line, LineRefusal>
    ensures { LineGives result (key_line chars.now) }
{
    let len = key_len(chars);
    if len == 0 {
        return Err(LineRefusal::BadLine);
    }
    let (key, rest) = chars.split_at(len);
    let key = text_of(alloc, key)?;
    let (_, rest) = rest.split_at(blanks_len(rest));
    after_key(alloc, key, rest)
}

fn after_key(alloc: Global, key: Text, chars: &[char]) -> Result<Line, LineRefusal>
    ensures { LineGives result (after_key key chars.now) }
{
    match chars {
        [] => Ok(Line::Alone { key }),
        [c, value @ ..] => {
            if *c == '=' {
                value_line(alloc, key, value)
            } else {
                Err(LineRefusal::BadLine)
            }
        }
    }
}

fn value_line(alloc: Global, key: Text, chars: &[char]) -> Result<Line, LineRefusal>
    ensures { LineGives result (value_line key chars.now) }
{
    let (_, value) = chars.split_at(blanks_len(chars));
    match value {
        ['\'', rest @ ..] => quoted_line(alloc, key, Quote::Single, rest),
        ['"', rest @ ..] => quoted_line(alloc, key, Quote::Double, rest),
        _ => plain_line(alloc, key, chars),
    }
}

/// A value in quotes, from behind its opening quote on.
fn quoted_line(alloc: Global, key: Text, quote: Quote, chars: &[char]) -> Result<Line, LineRefusal>
    ensures { LineGives result (quoted_line quote key chars.now) }
{
    match quoted(alloc, quote, chars)? {
        None => Err(LineRefusal::BadQuote),
        Some((value, len)) => {
            let (_, rest) = chars.split_at(len);
            let (_, rest) = rest.split_at(blanks_len(rest));
            if is_nothing(rest) {
                Ok(line_in(quote, key, value))
            } else {
                Err(LineRefusal::BadQuote)
            }
        }
    }
}

fn line_in(quote: Quote, key: Text, value: Text) -> Line
    ensures { result ≡ line_in quote key value }
{
    match quote {
        Quote::Single => Line::Literal { key, value },
        Quote::Double => Line::Substituted { key, value },
    }
}

fn plain_line(alloc: Global, key: Text, chars: &[char]) -> Result<Line, LineRefusal>
    ensures { LineGives result (plain_line key chars.now) }
{
    let (value, _) = chars.split_at(plain_len(chars));
    let value = trimmed(alloc, value)?;
    Ok(Line::Substituted { key, value })
}
