ghost use Rattle.std.specs.Prelude.{◌≡◌, ◌≤◌, ◌<◌, length, IfSome};
ghost use Rattle.yaml_lines.specs.Blanks.{is_white, spaces, blanks, is_rest_blank, is_blank, is_tab_first, tab_indent};

/// Whether a character is a space or a tab.
pub fn is_white(c: char) -> bool
    ensures { result ≡ is_white c }
{
    c == ' ' || c == '\t'
}

/// How many spaces stand at the front: a line's indentation.
pub fn spaces(chars: &[char]) -> usize
    ensures is { result ≡ spaces chars.now }
    ensures within { result ≤ length chars.now }
{
    for (at, c) in chars.iter().enumerate() {
        if *c != ' ' {
            return at;
        }
    }
    chars.len()
}

/// How many spaces and tabs stand at the front.
pub fn blanks(chars: &[char]) -> usize
    ensures is { result ≡ blanks chars.now }
    ensures within { result ≤ length chars.now }
{
    for (at, c) in chars.iter().enumerate() {
        if !is_white(*c) {
            return at;
        }
    }
    chars.len()
}

/// Whether only white space and a comment stand before the line's end. A comment begins with a `#` after
/// white space or at the line's start; `white` says whether one of these stands before the characters.
pub fn is_rest_blank(chars: &[char], white: bool) -> bool
    ensures { result ≡ is_rest_blank white chars.now }
{
    let mut white = white;
    for c in chars {
        if !is_white(*c) {
            return *c == '\n' || (*c == '#' && white);
        }
        white = true;
    }
    true
}

/// Whether a line has white space and a comment alone.
pub fn is_blank(chars: &[char]) -> bool
    ensures { result ≡ is_blank chars.now }
{
    is_rest_blank(chars, true)
}

/// Whether the first character that is no space is a tab.
fn is_tab_first(chars: &[char]) -> bool
    ensures { result ≡ is_tab_first chars.now }
{
    for c in chars {
        if *c != ' ' {
            return *c == '\t';
        }
    }
    false
}

/// The place of the tab in the indentation of a line that isn't blank; None exactly where there is none.
pub fn tab_indent(chars: &[char]) -> Option<usize>
    ensures is { result ≡ tab_indent chars.now }
    ensures within { IfSome result (λ at. at ≤ length chars.now) }
{
    if is_tab_first(chars) && !is_blank(chars) {
        Some(spaces(chars))
    } else {
        None
    }
}
