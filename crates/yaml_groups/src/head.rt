ghost use Rattle.std.specs.Prelude.{◌≡◌, ◌≤◌, length};
ghost use Rattle.yaml_groups.specs.Grouped.{head_of};
ghost use Rattle.yaml_groups.specs.Parts.{front_of};

use yaml_lines::{Context, blanks, is_white};
use yaml_nodes::{colon_of_key, is_item, is_property, name_len};

/// How many characters the white space, the dash, the property or the key takes that stands in front, 0 where none
/// does; and whether it is a dash or a key.
fn front_of(chars: &[char]) -> (usize, bool)
    ensures is { result ≡ front_of chars.now }
    ensures within { result.0 ≤ length chars.now }
{
    match chars {
        [] => (0, false),
        [c, rest @ ..] => {
            if is_white(*c) {
                (1, false)
            } else if is_item(chars) {
                (1, true)
            } else if is_property(chars) {
                (name_len(rest) + 1, false)
            } else if let Some(colon) = colon_of_key(chars, Context::Block) {
                (colon + 1, true)
            } else {
                (0, false)
            }
        }
    }
}

/// The column of a line's last dash or key, `owner` where it has none; and where the line's value begins.
pub fn head_of(chars: &[char], owner: usize) -> (usize, usize)
    ensures is { result ≡ head_of owner 0 0 chars.now }
    ensures within { result.1 ≤ length chars.now }
{
    let mut column = owner;
    let mut at = blanks(chars);
    loop {
        let (len, owns) = front_of(&chars[at..]);
        if len == 0 {
            return (column, at);
        }
        if owns {
            column = at;
        }
        at += len;
    }
}
