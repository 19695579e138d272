ghost use Rattle.std.specs.Prelude.{◌≡◌, ◌≤◌, ◌<◌, ◌+◌, length};
ghost use Rattle.yaml_groups.specs.Cuts.{line_len, quoted_token, token_len};

use yaml_lines::{Context, begins_plain, blanks, plain_len};
use yaml_nodes::{is_property, is_quote, name_len, quoted_len, starts};

/// How many characters stand before the line's end.
fn line_len(chars: &[char]) -> usize
    ensures is { result ≡ line_len chars.now }
    ensures within { result ≤ length chars.now }
{
    for (at, c) in chars.iter().enumerate() {
        if *c == '\n' {
            return at;
        }
    }
    chars.len()
}

/// How many characters a scalar in quotes takes that stands here, with the colon behind it where it is a key.
fn quoted_token(chars: &[char]) -> usize
    ensures is { result ≡ quoted_token chars.now }
    ensures within { result ≤ length chars.now }
{
    let len = quoted_len(chars);
    let rest = &chars[len..];
    let white = blanks(rest);
    if starts(&rest[white..], ':') {
        len + white + 1
    } else {
        len
    }
}

/// How many characters belong together here, so that no comma or bracket in them counts: a comment, a scalar in quotes,
/// an anchor, an alias or a tag, a plain scalar. `white` says whether white space precedes. Most that stand alone are
/// told by one look.
pub fn token_len(chars: &[char], white: bool) -> usize
    requires { 0 < length chars.now }
    ensures is { result ≡ token_len white chars.now }
    ensures within { result ≤ length chars.now }
{
    if let [' ' | ',' | '[' | ']' | '{' | '}', ..] = chars {
        return 1;
    }
    if starts(chars, '#') && white {
        return line_len(chars);
    }
    if is_quote(chars) {
        return quoted_token(chars);
    }
    if is_property(chars) || starts(chars, '*') {
        return 1 + name_len(&chars[1..]);
    }
    if begins_plain(chars) {
        return plain_len(chars, Context::Flow);
    }
    1
}
