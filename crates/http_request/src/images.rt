ghost use Rattle.std.specs.Prelude.{◌≡◌, ◌<◌, ◌≤◌, IfSome, length};
ghost use Rattle.http_request.specs.Images.{digest_place, image_of, tag_of, tag_place};

/// The image of a name: without its digest, and without its tag.
#[tactic(auto, unfolding(crate::specs::Images::image_of))]
pub(crate) fn image_of(name: &[u8]) -> &[u8]
    ensures { result.now ≡ image_of name.now }
{
    let name = name.split_at(digest_place(name)).0;
    match tag_place(name) {
        Some(at) => name.split_at(at).0,
        None => name,
    }
}

/// What is pulled of an image: the digest behind the name's first @, else its tag, else the latest.
#[tactic(auto, unfolding(crate::specs::Images::tag_of))]
pub(crate) fn tag_of(name: &[u8]) -> &[u8]
    ensures { result.now ≡ tag_of name.now }
{
    let at = digest_place(name);
    if at < name.len() {
        return name.split_at(at + 1).1;
    }
    match tag_place(name) {
        Some(at) => name.split_at(at + 1).1,
        None => b"latest",
    }
}

/// Where the first @ stands, or the name's end.
fn digest_place(name: &[u8]) -> usize
    ensures place { result ≡ digest_place name.now }
    ensures within { result ≤ length name.now }
{
    for (at, byte) in name.iter().enumerate() {
        if *byte == b'@' {
            return at;
        }
    }
    name.len()
}

/// Where the last : stands behind which there is no /.
fn tag_place(name: &[u8]) -> Option<usize>
    ensures place { result ≡ tag_place name.now }
    ensures within { IfSome result (λ at. at < length name.now) }
{
    let mut at = name.len();
    while at > 0 {
        at -= 1;
        if name[at] == b'/' {
            return None;
        }
        if name[at] == b':' {
            return Some(at);
        }
    }
    None
}
