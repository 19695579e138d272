ghost use Rattle.std.specs.Prelude.{◌≡◌};
ghost use Rattle.refusals.specs.Statuses.{digest_status, identity_status, refusal_status, status_of, unbuilt_status, words_status};

use crate::refusal::{Refusal, Unbuilt};
use compose_words::WordsRefusal;
use declared_set::IdentityRefusal;
use file_digests::DigestRefusal;
use loading_words::{active_status, load_status, project_status};
use run_lookups::{outcome_status, seen_status};

/// The exit status of a call: 0 where nothing is refused.
pub fn status_of(refusal: &Option<Refusal>) -> u8
    ensures { result ≡ status_of refusal.now }
{
    match refusal {
        None => 0,
        Some(refusal) => refusal_status(refusal),
    }
}

/// The exit status of a refusal.
pub fn refusal_status(refusal: &Refusal) -> u8
    ensures { result ≡ refusal_status refusal.now }
{
    match refusal {
        Refusal::Words(refusal) => words_status(*refusal),
        Refusal::NotBuilt(unbuilt) => unbuilt_status(unbuilt),
        Refusal::Load(refusal) => load_status(refusal),
        Refusal::Name(refusal) => project_status(refusal),
        Refusal::Active(refusal) => active_status(refusal),
        Refusal::Project(refusal) => project_status(refusal),
        Refusal::Digest(refusal) => digest_status(refusal),
        Refusal::Identity(refusal) => identity_status(refusal),
        Refusal::Seen(fault) => seen_status(fault),
        Refusal::Request { outcome, .. } => outcome_status(outcome),
        Refusal::Condition { .. } => 4,
        Refusal::Stopped => 5,
        Refusal::Late(_) => 6,
        Refusal::Outside(_) => 7,
        Refusal::Memory => 9,
    }
}

fn words_status(refusal: WordsRefusal) -> u8
    ensures { result ≡ words_status refusal }
{
    match refusal {
        WordsRefusal::Memory => 9,
        _ => 1,
    }
}

fn unbuilt_status(unbuilt: &Unbuilt) -> u8
    ensures { result ≡ unbuilt_status unbuilt.now }
{
    match unbuilt {
        Unbuilt::Words => 1,
    }
}

fn digest_status(refusal: &DigestRefusal) -> u8
    ensures { result ≡ digest_status refusal.now }
{
    match refusal {
        DigestRefusal::NotFound { .. } => 2,
        DigestRefusal::ReadFault { .. } => 7,
        DigestRefusal::FileTooLarge { .. } => 8,
        DigestRefusal::Memory => 9,
    }
}

fn identity_status(refusal: &IdentityRefusal) -> u8
    ensures { result ≡ identity_status refusal.now }
{
    match refusal {
        IdentityRefusal::UnknownScale(_) => 2,
        IdentityRefusal::TooManyNeeds(_) => 8,
        IdentityRefusal::NameTwice(_) => 2,
        IdentityRefusal::Memory => 9,
    }
}
