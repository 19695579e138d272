ghost use Rattle.std.specs.Prelude.{◌≡◌, ◌+◌, take, drop, length};
ghost use Rattle.std.specs.Str.{IsCharBoundary};

/// So many bytes of a text from a place on.
pub fn piece(text: &str, from: usize, len: usize) -> &str
    requires from_cut { IsCharBoundary text.now from }
    requires to_cut { IsCharBoundary text.now (from + len) }
    ensures value { result.now ≡ take len (drop from text.now) }
    ensures len { length result.now ≡ len }
{
    &text[from..from + len]
}

/// The text up to a place.
pub fn front(text: &str, len: usize) -> &str
    requires { IsCharBoundary text.now len }
    ensures { result.now ≡ take len text.now }
{
    let (front, _) = text.split_at(len);
    front
}

/// The text from a place on.
pub fn rest_from(text: &str, from: usize) -> &str
    requires { IsCharBoundary text.now from }
    ensures value { result.now ≡ drop from text.now }
    ensures len { from + length result.now ≡ length text.now }
{
    let (_, rest) = text.split_at(from);
    rest
}
