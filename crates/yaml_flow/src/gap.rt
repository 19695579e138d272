ghost use Rattle.std.specs.Prelude.{◌≡◌, ◌≤◌, ◌==◌, ◌&&◌, ◌||◌, not, length, IfOk};
ghost use Rattle.yaml_flow.specs.Gaps.{next_place};
ghost use Rattle.yaml_lines.specs.Answers.{Gives};
ghost use Rattle.yaml_lines.specs.Blanks.{is_white};
ghost use Rattle.yaml_nodes.specs.Marks.{is_left_out};

use yaml_lines::{Row, YamlFault, YamlRefusal, is_white, spaces, text_at};
use yaml_nodes::{Progress, is_left_out};

/// Whether a line that is left out begins behind a character.
fn begins_left_out(c: char, rest: &[char]) -> bool
    ensures { result ≡ ((c == 10) && is_left_out rest.now) }
{
    c == '\n' && is_left_out(rest)
}

/// Whether a character belongs to a gap, where `comment` and `white` say whether it stands in a comment and behind
/// white space (YAML 1.2, chapter 6.6).
fn is_in_gap(c: char, comment: bool, white: bool) -> bool
    ensures { result ≡ ((c == 10) || (comment || (is_white c || ((c == 35) && white)))) }
{
    c == '\n' || comment || is_white(c) || (c == '#' && white)
}

/// Whether what stands behind a character of a gap is in a comment.
fn is_in_comment(c: char, comment: bool) -> bool
    ensures { result ≡ (not (c == 10) && (comment || (c == 35))) }
{
    c != '\n' && (comment || c == '#')
}

/// The next place at which something stands, from a place of a row on, behind white space, comments and line ends;
/// `white` says whether white space precedes. Refuses a line that is left out (`Unsupported`) at its first character.
pub fn next_place(
    progress: &Progress,
    row: &Row,
    at: usize,
    white: bool,
) -> Result<usize, YamlRefusal>
    requires { at ≤ length row.now.chars }
    ensures is { Gives result (next_place progress.now row.now white at) }
    ensures within { IfOk result (λ next. next ≤ length row.now.chars) }
{
    let chars = text_at(row, at);
    let mut comment = false;
    let mut behind_white = white;
    for (n, c) in chars.iter().enumerate() {
        let rest = &chars[n + 1..];
        if begins_left_out(*c, rest) {
            return Err(progress.bad(YamlFault::Unsupported, row, at + n + 1 + spaces(rest)));
        }
        if !is_in_gap(*c, comment, behind_white) {
            return Ok(at + n);
        }
        comment = is_in_comment(*c, comment);
        behind_white = true;
    }
    Ok(at + chars.len())
}
