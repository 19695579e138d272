ghost use Rattle.std.specs.Prelude.{◌≡◌, ◌≤◌, ◌<◌, ◌+◌, ◌^◌, length, false};
ghost use Rattle.interpolate.specs.Heads.{ends, own, stops};
ghost use Rattle.interpolate.specs.Lengths.{starts_name, goes_on_name, run_len, name_len, literal_len, inside_len};

/// Whether a name may begin with a byte.
pub fn starts_name(c: u8) -> bool
    ensures { result ≡ starts_name c }
{
    c.is_ascii_alphabetic() || c == b'_'
}

fn goes_on_name(c: u8) -> bool
    ensures { result ≡ goes_on_name c }
{
    c.is_ascii_alphanumeric() || c == b'_'
}

fn run_len(text: &[u8]) -> usize
    ensures is { result ≡ run_len text.now }
    ensures within { result ≤ length text.now }
{
    for (at, c) in text.iter().enumerate() {
        if !goes_on_name(*c) {
            return at;
        }
    }
    text.len()
}

/// How long the name is that stands in front of a text, 0 where none does.
pub fn name_len(text: &[u8]) -> usize
    ensures is { result ≡ name_len text.now }
    ensures within { result ≤ length text.now }
{
    match text {
        [] => 0,
        [c, rest @ ..] => {
            if starts_name(*c) {
                run_len(rest) + 1
            } else {
                0
            }
        }
    }
}

/// Whether bytes that stand for themselves end before a byte: `$`, and `}` in a form.
fn stops(c: u8, inside: bool) -> bool
    ensures { result ≡ stops inside c }
{
    c == b'$' || (inside && c == b'}')
}

/// How many bytes stand for themselves in front of a text, which may stand in a form.
#[tactic(auto, using(crate::proofs::Inside::literal_own))]
pub fn literal_len(text: &[u8], inside: bool) -> usize
    ensures is { result ≡ literal_len (own inside text.now) }
    ensures within { result ≤ length text.now }
{
    for (at, c) in text.iter().enumerate() {
        if stops(*c, inside) {
            return at;
        }
    }
    text.len()
}

/// How many bytes stand before the `}` that closes a form, from behind its `${`; all where none does.
pub fn inside_len(text: &[u8]) -> usize
    ensures is { result ≡ inside_len 0 false text.now }
    ensures within { result ≤ length text.now }
{
    let mut opened = 0usize;
    let mut dollar = false;
    for (at, c) in text.iter().enumerate() {
        if *c == b'}' {
            if opened == 0 {
                return at;
            }
            opened -= 1;
        } else if dollar && *c == b'{' {
            opened += 1;
        }
        dollar = *c == b'$' && !dollar;
    }
    text.len()
}

/// Whether a text that may stand in a form is read to its end.
pub fn ends(text: &str, inside: bool) -> bool
    ensures { result ≡ ends inside text.now }
{
    bytes_end(text.as_bytes(), inside)
}

fn bytes_end(text: &[u8], inside: bool) -> bool
    ensures { result ≡ ends inside text.now }
{
    match text {
        [] => true,
        [c, ..] => inside && *c == b'}',
    }
}
