ghost use Rattle.std.specs.Prelude.{◌≡◌, IfOk};
ghost use Rattle.service_hashes.specs.Hashes.{digest_at, is_same_kind, text_hash};

use engine_types::Kind;
use sha2::{Digest, Sha256};
use std::alloc::Global;
use tree_base::{Memory, Text};

/// What the file of a secret or a config holds, by the lower hexadecimal form of its SHA-256 digest.
#[derive(Drop)]
pub struct FileDigest {
    pub kind: Kind,
    pub key: Text,
    pub digest: Text,
}

/// The SHA-256 digest of a text in lower hexadecimal.
pub(crate) fn text_hash(alloc: Global, text: &str) -> Result<Text, Memory>
    ensures { IfOk result (λ hash. hash ≡ text_hash text.now) }
{
    let digest = Sha256::digest(text);
    Ok(Text::from_string(hex::encode(alloc, digest)?))
}

/// The digest of the file of this kind with a key, the empty text where there is none. No memory.
pub(crate) fn digest_at<'d>(digests: &'d [FileDigest], kind: Kind, key: &str) -> &'d str
    ensures { result.now ≡ digest_at digests.now kind key.now }
{
    let found = digests.iter().find(|row| is_same_kind(row.kind, kind) && row.key.as_str() == key);
    match found {
        Some(row) => row.digest.as_str(),
        None => "",
    }
}

/// Whether two kinds are the same.
fn is_same_kind(kind: Kind, other: Kind) -> bool
    ensures { result ≡ is_same_kind kind other }
{
    match kind {
        Kind::Service => matches!(other, Kind::Service),
        Kind::Network => matches!(other, Kind::Network),
        Kind::Volume => matches!(other, Kind::Volume),
        Kind::Secret => matches!(other, Kind::Secret),
        Kind::Config => matches!(other, Kind::Config),
    }
}
