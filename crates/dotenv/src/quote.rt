ghost use Rattle.std.specs.Prelude.{◌≡◌, ◌≤◌, length, IfOk, IfSome};
ghost use Rattle.dotenv.specs.Quotes.{mark, escaped, escape_in_front, quoted_of, spelled};

use std::alloc::Global;
use tree_base::{Memory, Text};

/// The quotes that a value may stand in.
#[derive(Clone, Copy)]
pub enum Quote {
    /// The value is literal, but for `\'`.
    Single,
    /// The value has escapes and is substituted.
    Double,
}

fn mark(quote: Quote) -> char
    ensures { result ≡ mark quote }
{
    match quote {
        Quote::Single => '\'',
        Quote::Double => '"',
    }
}

/// The character that two characters spell, where the first is a backslash that takes the second.
fn escaped(quote: Quote, c: char, d: char) -> Option<char>
    ensures { result ≡ escaped quote c d }
{
    if c != '\\' {
        return None;
    }
    match quote {
        Quote::Single => match d {
            '\'' => Some('\''),
            _ => None,
        },
        Quote::Double => match d {
            'n' => Some('\n'),
            'r' => Some('\r'),
            't' => Some('\t'),
            '\\' => Some('\\'),
            '"' => Some('"'),
            _ => None,
        },
    }
}

/// The character that is escaped in front, where one is.
fn escape_in_front(quote: Quote, chars: &[char]) -> Option<char>
    ensures is { result ≡ escape_in_front quote chars.now }
    ensures two { IfSome result (λ _. 2 ≤ length chars.now) }
{
    match chars {
        [c, d, ..] => escaped(quote, *c, *d),
        _ => None,
    }
}

/// The text in quotes, from behind the opening one on, and how many characters spell it with the closing quote; None
/// where it isn't closed.
pub fn quoted(alloc: Global, quote: Quote, chars: &[char]) -> Result<Option<(Text, usize)>, Memory>
    ensures is { IfOk result (λ read. read ≡ spelled (quoted_of quote chars.now)) }
    ensures within { IfOk result (λ read. IfSome read (λ p. p.1 ≤ length chars.now)) }
{
    let mut text = Text::new(alloc);
    let mut at = 0;
    while at < chars.len() {
        let c = chars[at];
        if c == mark(quote) {
            return Ok(Some((text, at + 1)));
        }
        match escape_in_front(quote, &chars[at..]) {
            Some(d) => {
                text.push(d)?;
                at += 2;
            }
            None => {
                text.push(c)?;
                at += 1;
            }
        }
    }
    Ok(None)
}
