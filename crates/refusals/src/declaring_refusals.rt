ghost use Rattle.std.specs.Prelude.{◌≡◌};
ghost use Rattle.refusals.specs.Lines.{digest_words, identity_words, refusal_words};
ghost use Rattle.refusals.specs.Origins.{IsOfDeclaring, digest_refusal, identity_refusal};
ghost use Rattle.refusals.specs.Statuses.{digest_status, identity_status, refusal_status};

use crate::refusal::Refusal;
use declared_set::IdentityRefusal;
use file_digests::DigestRefusal;

impl From<DigestRefusal> for Refusal {
    ghost from_gives = { λ refusal joined. joined ≡ digest_refusal refusal };

    /// What a call is refused with that has no digest of a file: it has the refusal's status and words, and comes before
    /// the dial. No memory.
    fn from(refusal: DigestRefusal) -> Refusal
        ensures refusal { result ≡ digest_refusal refusal }
        ensures status { refusal_status result ≡ digest_status refusal }
        ensures words { refusal_words result ≡ digest_words refusal }
        ensures kind { IsOfDeclaring result }
    {
        match refusal {
            DigestRefusal::Memory => Refusal::Memory,
            refusal => Refusal::Digest(refusal),
        }
    }
}

impl From<IdentityRefusal> for Refusal {
    ghost from_gives = { λ refusal joined. joined ≡ identity_refusal refusal };

    /// What a call is refused with whose project declares nothing: it has the refusal's status and words, and comes
    /// before the dial. No memory.
    fn from(refusal: IdentityRefusal) -> Refusal
        ensures refusal { result ≡ identity_refusal refusal }
        ensures status { refusal_status result ≡ identity_status refusal }
        ensures words { refusal_words result ≡ identity_words refusal }
        ensures kind { IsOfDeclaring result }
    {
        match refusal {
            IdentityRefusal::Memory => Refusal::Memory,
            refusal => Refusal::Identity(refusal),
        }
    }
}
