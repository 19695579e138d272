ghost use Rattle.std.specs.Prelude.{◌≡◌, ◌≤◌, ◌<◌, ◌+◌, ◌^◌, length};
ghost use Rattle.yaml_groups.specs.Grouped.{line_ends_in};
ghost use Rattle.yaml_groups.specs.Parts.{closes, scanned};

use crate::cut::{is_closing, is_space, open_behind};
use crate::token::token_len;

/// How far a flow collection goes: what is known of it behind some of its characters, or where it is closed.
#[derive(Clone, Copy, Drop)]
pub struct Scan {
    /// How many line feeds stand before.
    pub ends: usize,
    /// How many brackets are open within the collection.
    pub brackets: usize,
    /// Whether the bracket stands here that closes the collection.
    pub closed: bool,
}

/// How many line feeds stand in characters.
fn line_ends_in(chars: &[char]) -> usize
    ensures is { result ≡ line_ends_in chars.now }
    ensures within { result ≤ length chars.now }
{
    let mut count = 0;
    for c in chars {
        if *c == '\n' {
            count += 1;
        }
    }
    count
}

/// Whether a bracket closes the collection, within which so many are open.
fn closes(brackets: usize, c: char) -> bool
    ensures { result ≡ closes brackets c }
{
    is_closing(c) && brackets == 0
}

/// Goes on over characters, to the bracket that closes the collection, else to their end. `white` says whether white
/// space precedes.
pub fn scanned(from: Scan, white: bool, text: &[char]) -> Scan
    requires few_ends { from.ends + length text.now < 2 ^ 64 }
    requires few_brackets { from.brackets + length text.now < 2 ^ 64 }
    ensures is { result ≡ scanned from.ends from.brackets 0 white text.now }
    ensures ends { result.ends ≤ from.ends + length text.now }
    ensures brackets { result.brackets ≤ from.brackets + length text.now }
{
    let mut ends = from.ends;
    let mut brackets = from.brackets;
    let mut behind_white = white;
    let mut at = 0;
    while at < text.len() {
        let c = text[at];
        if closes(brackets, c) {
            return Scan {
                ends,
                brackets,
                closed: true,
            };
        }
        brackets = open_behind(brackets, c);
        let rest = &text[at..];
        let len = token_len(rest, behind_white).max(1);
        ends += line_ends_in(&rest[..len]);
        at += len;
        behind_white = is_space(text[at - 1]);
    }
    Scan {
        ends,
        brackets,
        closed: false,
    }
}
