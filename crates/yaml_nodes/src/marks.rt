ghost use Rattle.std.specs.Prelude.{◌≡◌, ◌≤◌, ◌<◌, ◌||◌, Some, None, IfSome, codes, length, if◌then◌else◌};
ghost use Rattle.yaml_nodes.specs.Marks.{starts, starts_with, is_item, name_len, is_property, front_len, properties_len, is_quote, key_len, is_colon_of, before_colon, is_key, is_key_behind, is_left_out};

use crate::quotes::quoted_len;
use yaml_lines::{
    Context, begins_plain, blanks, is_colon, is_space_or_end, is_white, plain_len, spaces,
};

/// Whether the characters start with one.
pub fn starts(chars: &[char], c: char) -> bool
    ensures { result ≡ starts c chars.now }
{
    match chars {
        [] => false,
        [first, ..] => *first == c,
    }
}

/// Whether an item of a block sequence begins here: a dash before a space or the line's end (YAML 1.2, chapter 8.2.1).
pub fn is_item(chars: &[char]) -> bool
    ensures { result ≡ is_item chars.now }
{
    match chars {
        [] => false,
        [c, rest @ ..] => *c == '-' && is_space_or_end(rest),
    }
}

/// How long the name is that stands here, behind `&`, `*` or `!`: to a space, the line's end or one of `, [ ] { }`.
pub fn name_len(chars: &[char]) -> usize
    ensures is { result ≡ name_len chars.now }
    ensures within { result ≤ length chars.now }
{
    for (at, c) in chars.iter().enumerate() {
        if matches!(*c, ' ' | '\n' | ',' | '[' | ']' | '{' | '}') {
            return at;
        }
    }
    chars.len()
}

/// Whether a property begins here: `&` of an anchor, or `!` of a tag (YAML 1.2, chapter 6.9).
pub fn is_property(chars: &[char]) -> bool
    ensures { result ≡ is_property chars.now }
{
    starts(chars, '&') || starts(chars, '!')
}

/// How many characters the white space or the property takes that stands in front; 0 where neither does.
fn front_len(chars: &[char]) -> usize
    ensures is { result ≡ front_len chars.now }
    ensures within { result ≤ length chars.now }
{
    match chars {
        [] => 0,
        [c, rest @ ..] => {
            if is_white(*c) {
                1
            } else if is_property(chars) {
                name_len(rest) + 1
            } else {
                0
            }
        }
    }
}

/// How long the run of properties is that stands here, with the white space between and behind them.
pub fn properties_len(chars: &[char]) -> usize
    ensures is { result ≡ properties_len 0 chars.now }
    ensures within { result ≤ length chars.now }
{
    let mut at = 0;
    while at < chars.len() {
        let len = front_len(&chars[at..]);
        if len == 0 {
            return at;
        }
        at += len;
    }
    at
}

/// Whether a quote stands here, which opens a scalar.
pub fn is_quote(chars: &[char]) -> bool
    ensures { result ≡ is_quote chars.now }
{
    starts(chars, '\'') || starts(chars, '"')
}

/// How long the key is that stands here, or the alias in its place; 0 where neither does.
pub fn key_len(chars: &[char], context: Context) -> usize
    ensures is { result ≡ key_len context chars.now }
    ensures within { result ≤ length chars.now }
{
    if is_quote(chars) {
        return quoted_len(chars);
    }
    match chars {
        ['*', rest @ ..] => 1 + name_len(rest),
        _ => {
            if begins_plain(chars) {
                plain_len(chars, context)
            } else {
                0
            }
        }
    }
}

/// Whether the colon of a key stands in front of the rest: before a space or the line's end, and behind a key in
/// quotes of a flow collection before any character.
pub fn is_colon_of(key: &[char], rest: &[char], context: Context) -> bool
    ensures { result ≡ is_colon_of context key.now rest.now }
{
    is_colon(rest) || (context == Context::Flow && is_quote(key) && starts(rest, ':'))
}

/// How many characters stand before the colon of the key that stands here: the key and white space.
pub fn before_colon(chars: &[char], context: Context) -> usize
    ensures is { result ≡ before_colon context chars.now }
    ensures within { result ≤ length chars.now }
{
    let len = key_len(chars, context);
    len + blanks(&chars[len..])
}

/// How many characters stand before the colon of the key that stands here on one line, or of the alias in its place;
/// None exactly where no key with its colon does.
pub fn colon_of_key(chars: &[char], context: Context) -> Option<usize>
    ensures is { result
        ≡ (if is_key context chars.now then Some (before_colon context chars.now) else None) }
    ensures within { IfSome result (λ at. at < length chars.now) }
{
    let len = key_len(chars, context);
    let colon = len + blanks(&chars[len..]);
    if len > 0 && is_colon_of(chars, &chars[colon..], context) {
        Some(colon)
    } else {
        None
    }
}

/// Whether a key with its colon stands here on one line; an alias may stand in its place.
pub fn is_key(chars: &[char], context: Context) -> bool
    ensures { result ≡ is_key context chars.now }
{
    let len = key_len(chars, context);
    let rest = &chars[len..];
    len > 0 && is_colon_of(chars, &rest[blanks(rest)..], context)
}

/// Whether a key stands here behind properties, or a colon alone, which has an empty key.
pub fn is_key_behind(chars: &[char], context: Context) -> bool
    ensures { result ≡ is_key_behind context chars.now }
{
    let rest = &chars[properties_len(chars)..];
    is_key(rest, context) || is_colon(rest)
}

/// Whether a line stands here that YAML knows and this profile leaves out: one with `---`, `...` or `%` at its first
/// column, or `? ` behind its indentation.
pub fn is_left_out(line: &[char]) -> bool
    ensures { result ≡ is_left_out line.now }
{
    is_marker(line) || starts(line, '%') || is_complex_key(&line[spaces(line)..])
}

/// Whether a marker of a document stands here (YAML 1.2, chapter 9.1.2).
fn is_marker(chars: &[char]) -> bool
    ensures { result
        ≡ (starts_with (codes "---") chars.now || starts_with (codes "...") chars.now) }
{
    matches!(chars, ['-', '-', '-', ..] | ['.', '.', '.', ..])
}

/// Whether a key of more than one line begins here (YAML 1.2, chapter 8.2.2).
fn is_complex_key(chars: &[char]) -> bool
    ensures { result ≡ starts_with (codes "? ") chars.now }
{
    matches!(chars, ['?', ' ', ..])
}
