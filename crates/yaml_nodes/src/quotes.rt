ghost use Rattle.std.specs.Prelude.{◌≡◌, ◌≤◌, length, IfSome};
ghost use Rattle.yaml_lines.specs.Quoted.{single_of, double_of, behind_quote, quoted_of};
ghost use Rattle.yaml_nodes.specs.Marks.{read_len, counted};

use crate::marks::starts;
use yaml_lines::escaped_char;

/// How many characters the scalar in quotes takes that begins here, with its quotes; 0 where none begins, or it has an
/// escape that isn't known or isn't closed on its line.
pub fn quoted_len(chars: &[char]) -> usize
    ensures is { result ≡ read_len (quoted_of chars.now) }
    ensures within { result ≤ length chars.now }
{
    match chars {
        [] => 0,
        [quote, rest @ ..] => match behind_len(*quote, rest) {
            None => 0,
            Some(len) => len + 1,
        },
    }
}

/// How many characters go on behind a character that may be an opening quote, with the closing one.
fn behind_len(quote: char, rest: &[char]) -> Option<usize>
    ensures is { result ≡ counted (behind_quote quote rest.now) }
    ensures within { IfSome result (λ len. len ≤ length rest.now) }
{
    match quote {
        '\'' => single_len(rest),
        '"' => double_len(rest),
        _ => None,
    }
}

/// How many characters the text in single quotes takes that goes on here, with the closing quote.
fn single_len(chars: &[char]) -> Option<usize>
    ensures is { result ≡ counted (single_of chars.now) }
    ensures within { IfSome result (λ len. len ≤ length chars.now) }
{
    let mut at = 0;
    while at < chars.len() {
        let c = chars[at];
        if c == '\n' {
            return None;
        }
        if c != '\'' {
            at += 1;
        } else if starts(&chars[at + 1..], '\'') {
            at += 2;
        } else {
            return Some(at + 1);
        }
    }
    None
}

/// How many characters the text in double quotes takes that goes on here, with the closing quote.
fn double_len(chars: &[char]) -> Option<usize>
    ensures is { result ≡ counted (double_of 0 chars.now) }
    ensures within { IfSome result (λ len. len ≤ length chars.now) }
{
    let mut at = 0;
    while at < chars.len() {
        match chars[at] {
            '"' => return Some(at + 1),
            '\n' => return None,
            '\\' => match escaped_char(&chars[at + 1..]) {
                None => return None,
                Some((_, len)) => at += len + 1,
            },
            _ => at += 1,
        }
    }
    None
}
