ghost use Rattle.std.specs.Prelude.{◌≡◌, ◌≤◌, ◌<◌, ◌+◌, length, OnSome, IfSome};
ghost use Rattle.std.specs.Option.{option_map};
ghost use Rattle.yaml_lines.specs.Quoted.{short_escape, hex_of, escape_of};

/// The character of an escape of one character.
fn short_escape(c: char) -> Option<char>
    ensures { result ≡ short_escape c }
{
    match c {
        '0' => Some('\0'),
        'a' => Some('\u{7}'),
        'b' => Some('\u{8}'),
        't' => Some('\t'),
        'n' => Some('\n'),
        'v' => Some('\u{B}'),
        'f' => Some('\u{C}'),
        'r' => Some('\r'),
        'e' => Some('\u{1B}'),
        ' ' | '"' | '/' | '\\' => Some(c),
        'N' => Some('\u{85}'),
        '_' => Some('\u{A0}'),
        'L' => Some('\u{2028}'),
        'P' => Some('\u{2029}'),
        _ => None,
    }
}

/// The character of so many hexadecimal digits.
fn hex(chars: &[char], digits: usize) -> Option<char>
    ensures is { result ≡ hex_of digits 0 chars.now }
    ensures within { OnSome result (digits ≤ length chars.now) }
{
    let mut value = 0u32;
    for i in 0..digits {
        if i >= chars.len() {
            return None;
        }
        if value >= 0x11_0000 {
            return None;
        }
        value = value * 16 + chars[i].to_digit(16)?;
    }
    char::from_u32(value)
}

/// The character of so many hexadecimal digits, and how many characters it takes with the letter before them.
fn of_digits(chars: &[char], digits: usize) -> Option<(char, usize)>
    requires { digits < 9 }
    ensures is { result ≡ option_map (λ d. (d, digits + 1)) (hex_of digits 0 chars.now) }
    ensures within { IfSome result (λ p. p.1 ≤ length chars.now + 1) }
{
    match hex(chars, digits) {
        None => None,
        Some(d) => Some((d, digits + 1)),
    }
}

/// The character of the escape that stands here behind a backslash, and how many characters it takes; None exactly where
/// no escape stands here that is known (YAML 1.2, chapter 5.7). No memory.
pub fn escaped_char(chars: &[char]) -> Option<(char, usize)>
    ensures is { result ≡ escape_of chars.now }
    ensures within { IfSome result (λ p. p.1 ≤ length chars.now) }
{
    match chars {
        [] => None,
        [c, rest @ ..] => match *c {
            'x' => of_digits(rest, 2),
            'u' => of_digits(rest, 4),
            'U' => of_digits(rest, 8),
            c => match short_escape(c) {
                None => None,
                Some(d) => Some((d, 1)),
            },
        },
    }
}
