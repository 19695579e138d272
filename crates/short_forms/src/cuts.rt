ghost use Rattle.std.specs.Prelude.{◌≡◌, ◌<◌, ◌==◌, IfSome, length};
ghost use Rattle.std.specs.List.{position};
ghost use Rattle.std.specs.Option.{option_map};
ghost use Rattle.short_forms.specs.Cuts.{cut_once};

/// What stands before and after the first byte `at`, where there is one. No memory.
pub fn cut_bytes(text: &[u8], at: u8) -> Option<(&[u8], &[u8])>
    ensures { option_map (λ p. (p.0.now, p.1.now)) result ≡ cut_once at text.now }
{
    let place = place_of(text, at)?;
    Some((&text[..place], &text[place + 1..]))
}

/// The place of the first byte `at`.
fn place_of(text: &[u8], at: u8) -> Option<usize>
    ensures value { result ≡ position (λ b. b == at) text.now }
    ensures within { IfSome result (λ place. place < length text.now) }
{
    text.iter().position(|b| *b == at)
}

/// What stands before and after the first ASCII character `at`, where there is one. No memory.
pub fn cut_text(text: &str, at: char) -> Option<(&str, &str)>
    requires { at < 128 }
    ensures { option_map (λ p. (p.0.now, p.1.now)) result ≡ cut_once at text.now }
{
    text.split_once(at)
}
