ghost use Rattle.std.specs.Prelude.{◌≡◌, ◌≤◌, ◌<◌, ◌+◌, ◌^◌, length, false};
ghost use Rattle.interpolate.specs.Lengths.{goes_on_name, inside_len, literal_len, name_len, run_len, starts_name};

/// Whether a name may begin with a byte.
pub(crate) fn starts_name(c: u8) -> bool
    ensures { result ≡ starts_name c }
{
    c.is_ascii_alphabetic() || c == b'_'
}

fn goes_on_name(c: u8) -> bool
    ensures { result ≡ goes_on_name c }
{
    c.is_ascii_alphanumeric() || c == b'_'
}

fn run_len(text: &[u8]) -> usize
    ensures is { result ≡ run_len text.now }
    ensures within { result ≤ length text.now }
{
    for (at, c) in text.iter().enumerate() {
        if !goes_on_name(*c) {
            return at;
        }
    }
    text.len()
}

/// How long the name is that stands in front of a text, 0 where none does.
pub(crate) fn name_len(text: &[u8]) -> usize
    ensures is { result ≡ name_len text.now }
    ensures within { result ≤ length text.now }
{
    match text {
        [] => 0,
        [c, rest @ ..] => {
            if starts_name(*c) {
                run_len(rest) + 1
            } else {
                0
            }
        }
    }
}

/// How many bytes stand before the first `$`.
pub(crate) fn literal_len(text: &[u8]) -> usize
    ensures is { result ≡ literal_len text.now }
    ensures within { result ≤ length text.now }
{
    for (at, c) in text.iter().enumerate() {
        if *c == b'$' {
            return at;
        }
    }
    text.len()
}

/// How many bytes stand before the `}` that closes a form, from behind its `${`; all where none does.
pub(crate) fn inside_len(text: &[u8]) -> usize
    ensures is { result ≡ inside_len 0 false text.now }
    ensures within { result ≤ length text.now }
{
    let mut opened = 0usize;
    let mut dollar = false;
    for (at, c) in text.iter().enumerate() {
        if *c == b'}' {
            if opened == 0 {
                return at;
            }
            opened -= 1;
        } else if dollar && *c == b'{' {
            opened += 1;
        }
        dollar = *c == b'$' && !dollar;
    }
    text.len()
}
