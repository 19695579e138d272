ghost use Rattle.std.specs.Prelude.{◌≡◌, ◌++◌, IfOk};
ghost use Rattle.refusals.specs.Lines.{digest_words, identity_words};
ghost use Rattle.declared_set.specs.declared.refusal.IdentityRefusal.{IdentityRefusal};

use crate::line::before_text;
use declared_set::IdentityRefusal;
use file_digests::DigestRefusal;
use std::alloc::Global;
use tree_base::{Memory, Text};

/// What is said of a file that there is no digest of.
pub(crate) fn digest_words(alloc: Global, refusal: &DigestRefusal) -> Result<Text, Memory>
    ensures { IfOk result (λ words. words ≡ digest_words refusal.now) }
{
    match refusal {
        DigestRefusal::NotFound { path } => behind_text(alloc, path, ": NotFound"),
        DigestRefusal::ReadFault { path } => behind_text(alloc, path, ": ReadFault"),
        DigestRefusal::FileTooLarge { path } => behind_text(alloc, path, ": FileTooLarge"),
        DigestRefusal::Memory => Text::from_str(alloc, "memory"),
    }
}

/// What is said of a project that declares nothing.
pub(crate) fn identity_words(alloc: Global, refusal: &IdentityRefusal) -> Result<Text, Memory>
    ensures { IfOk result (λ words. words ≡ identity_words refusal.now) }
{
    match refusal {
        IdentityRefusal::UnknownScale(service) => before_text(alloc, "no service ", service),
        IdentityRefusal::TooManyNeeds(count) => needs_words(alloc, *count),
        IdentityRefusal::NameTwice(name) => before_text(alloc, "name twice: ", name),
        IdentityRefusal::Memory => Text::from_str(alloc, "memory"),
    }
}

fn needs_words(alloc: Global, count: u64) -> Result<Text, Memory>
    ensures { IfOk result (λ words. words ≡ identity_words (IdentityRefusal.TooManyNeeds count)) }
{
    let words = format!(in alloc; "TooManyNeeds: {count}")?;
    Ok(Text::from_string(words))
}

fn behind_text(alloc: Global, text: &Text, words: &str) -> Result<Text, Memory>
    ensures { IfOk result (λ all. all ≡ text.now ++ words.now) }
{
    let all = format!(in alloc; "{text}{words}")?;
    Ok(Text::from_string(all))
}
