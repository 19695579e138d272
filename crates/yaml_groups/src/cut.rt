ghost use Rattle.std.specs.Prelude.{◌≡◌, ◌≤◌, ◌<◌, ◌+◌, ◌^◌, length, false};
ghost use Rattle.yaml_groups.specs.Cuts.{is_opening, is_closing, open_behind, is_cut, is_space, cut_len};

use crate::token::token_len;
use yaml_lines::is_white;

fn is_opening(c: char) -> bool
    ensures { result ≡ is_opening c }
{
    c == '[' || c == '{'
}

/// Whether a character is a closing bracket, which ends a flow collection (YAML 1.2, chapter 7.4).
pub fn is_closing(c: char) -> bool
    ensures { result ≡ is_closing c }
{
    c == ']' || c == '}'
}

/// How many brackets are open behind a character, where so many were before it.
pub fn open_behind(brackets: usize, c: char) -> usize
    requires { brackets + 1 < 2 ^ 64 }
    ensures is { result ≡ open_behind brackets c }
    ensures few { result ≤ brackets + 1 }
{
    if is_opening(c) {
        brackets + 1
    } else if is_closing(c) && brackets > 0 {
        brackets - 1
    } else {
        brackets
    }
}

/// Whether a collection is cut before a character, where so many brackets are open within.
fn is_cut(brackets: usize, c: char) -> bool
    ensures { result ≡ is_cut brackets c }
{
    brackets == 0 && (is_closing(c) || c == ',')
}

/// Whether a character is white space or a line's end.
pub fn is_space(c: char) -> bool
    ensures { result ≡ is_space c }
{
    is_white(c) || c == '\n'
}

/// How many characters of a flow collection stand before its next cut, from behind an opening bracket or a comma on:
/// its next comma, or the bracket that closes it. Without one it is all of them.
pub fn cut_len(text: &[char]) -> usize
    ensures is { result ≡ cut_len 0 0 false text.now }
    ensures within { result ≤ length text.now }
{
    let mut brackets = 0;
    let mut white = false;
    let mut at = 0;
    while at < text.len() {
        let c = text[at];
        if is_cut(brackets, c) {
            return at;
        }
        brackets = open_behind(brackets, c);
        at += token_len(&text[at..], white).max(1);
        white = is_space(text[at - 1]);
    }
    at
}
