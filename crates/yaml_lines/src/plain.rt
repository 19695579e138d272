ghost use Rattle.std.specs.Prelude.{◌≡◌, ◌≤◌, ◌<◌, [], length, take, IfOk, IfSome};
ghost use Rattle.std.specs.Str.{encode_utf8_all};
ghost use Rattle.yaml_lines.specs.Plain.{is_space_or_end, is_colon, is_flow_mark, is_indicator, is_mark_before_space, begins_plain, ends_item, ends_plain, plain_len, plain_of};
ghost use Rattle.yaml_lines.specs.Spelling.{spelled};

use crate::blank::is_white;
use std::alloc::Global;
use tree_base::{Memory, Text};

/// Where a plain scalar stands.
#[derive(Clone, Copy, PartialEq, Eq)]
pub enum Context {
    /// Outside flow collections.
    Block,
    /// In a flow collection, where `, [ ] { }` end it too.
    Flow,
}

/// Whether a space or the line's end stands here.
pub fn is_space_or_end(chars: &[char]) -> bool
    ensures { result ≡ is_space_or_end chars.now }
{
    match chars {
        [] => true,
        [c, ..] => *c == ' ' || *c == '\n',
    }
}

/// Whether a colon stands here before a space or the line's end, which ends a key.
pub fn is_colon(chars: &[char]) -> bool
    ensures { result ≡ is_colon chars.now }
{
    match chars {
        [] => false,
        [c, rest @ ..] => *c == ':' && is_space_or_end(rest),
    }
}

fn is_flow_mark(c: char) -> bool
    ensures { result ≡ is_flow_mark c }
{
    matches!(c, ',' | '[' | ']' | '{' | '}')
}

fn is_indicator(c: char) -> bool
    ensures { result ≡ is_indicator c }
{
    matches!(
        c,
        '#' | '&' | '*' | '!' | '|' | '>' | '\'' | '"' | '%' | '@' | '`'
    )
}

fn is_mark_before_space(c: char) -> bool
    ensures { result ≡ is_mark_before_space c }
{
    matches!(c, '-' | '?' | ':')
}

/// Whether a plain scalar may begin here.
pub fn begins_plain(chars: &[char]) -> bool
    ensures { result ≡ begins_plain chars.now }
{
    match chars {
        [] => false,
        [c, rest @ ..] => {
            if is_mark_before_space(*c) {
                !is_space_or_end(rest)
            } else {
                !(is_white(*c) || *c == '\n' || is_flow_mark(*c) || is_indicator(*c))
            }
        }
    }
}

fn ends_item(context: Context, c: char) -> bool
    ensures { result ≡ ends_item context c }
{
    match context {
        Context::Block => false,
        Context::Flow => is_flow_mark(c),
    }
}

/// Whether a plain scalar ends before these characters, where `white` says whether white space precedes. Most characters
/// are past the colon, which one comparison tells.
fn ends_plain(chars: &[char], context: Context, white: bool) -> bool
    ensures { result ≡ ends_plain context white chars.now }
{
    match chars {
        [] => true,
        [c, ..] => {
            (*c <= ':' && (is_colon(chars) || (*c == '#' && white) || *c == '\n'))
                || ends_item(context, *c)
        }
    }
}

/// How long the plain scalar is that begins here, without the white space at its end.
pub fn plain_len(chars: &[char], context: Context) -> usize
    ensures is { result ≡ plain_len context chars.now }
    ensures within { result ≤ length chars.now }
{
    let mut white = false;
    let mut end = 0;
    for (at, c) in chars.iter().enumerate() {
        if ends_plain(&chars[at..], context, white) {
            return end;
        }
        white = is_white(*c);
        if !white {
            end = at + 1;
        }
    }
    end
}

/// The plain scalar that begins here, and how many characters spell it. None exactly where none may begin.
pub fn plain_scalar(
    alloc: Global,
    chars: &[char],
    context: Context,
) -> Result<Option<(Text, usize)>, Memory>
    ensures is { IfOk result (λ read. read ≡ spelled (plain_of context chars.now)) }
    ensures within { IfOk result (λ read. IfSome read (λ p. p.1 ≤ length chars.now)) }
{
    if !begins_plain(chars) {
        return Ok(None);
    }
    let len = plain_len(chars, context);
    Ok(Some((text_of(alloc, &chars[..len])?, len)))
}

/// The text of characters.
pub fn text_of(alloc: Global, chars: &[char]) -> Result<Text, Memory>
    ensures { IfOk result (λ text. text ≡ encode_utf8_all chars.now) }
{
    let mut text = with_room(alloc, chars.len())?;
    for c in chars {
        text.push(*c)?;
    }
    Ok(text)
}

/// An empty text with room for so many bytes.
pub(crate) fn with_room(alloc: Global, bytes: usize) -> Result<Text, Memory>
    ensures { IfOk result (λ text. text ≡ []) }
{
    Ok(Text::from_string(String::with_capacity(alloc, bytes)?))
}
