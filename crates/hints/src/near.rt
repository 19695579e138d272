ghost use Rattle.std.specs.Prelude.{◌≡◌, IfOk, find, map};
ghost use Rattle.std.specs.Option.{option_map};
ghost use Rattle.hints.specs.Near.{is_begun, is_within, meant_words, near};

use run_lookups::shown;
use std::alloc::Global;
use strsim::osa_distance;
use tree_base::{Memory, Text};

/// From how many bytes on a word may be two edits away from the one that is meant.
const LEAST_FOR_TWO: usize = 6;

/// From how many bytes on a word may be the beginning of the one that is meant.
const LEAST_FOR_BEGINNING: usize = 3;

/// The known word that is near another: the first that is one edit away, else, of a word of six bytes or more, the first that is
/// two away, else, of a word of three bytes or more, the first that begins with it.
pub(crate) fn near<'a>(
    alloc: Global,
    word: &str,
    known: &[&'a str],
) -> Result<Option<&'a str>, Memory>
    ensures { IfOk result (λ found.
        option_map (λ whole. whole.now) found
        ≡ near word.now (map (λ whole. whole.now) known.now)) }
{
    if let Some(found) = within(alloc, 1, word, known)? {
        return Ok(Some(found));
    }
    if word.len() >= LEAST_FOR_TWO {
        if let Some(found) = within(alloc, 2, word, known)? {
            return Ok(Some(found));
        }
    }
    if word.len() < LEAST_FOR_BEGINNING {
        return Ok(None);
    }
    Ok(begun(word, known))
}

/// The first known word that is so many edits away at most.
fn within<'a>(
    alloc: Global,
    edits: usize,
    word: &str,
    known: &[&'a str],
) -> Result<Option<&'a str>, Memory>
    ensures { IfOk result (λ found. option_map (λ whole. whole.now) found
        ≡ find (is_within edits word.now) (map (λ whole. whole.now) known.now)) }
{
    for whole in known {
        if osa_distance(alloc, word, whole)? <= edits {
            return Ok(Some(whole));
        }
    }
    Ok(None)
}

/// The first known word that begins with another.
fn begun<'a>(word: &str, known: &[&'a str]) -> Option<&'a str>
    ensures { option_map (λ whole. whole.now) result
        ≡ find (is_begun word.now) (map (λ whole. whole.now) known.now) }
{
    for whole in known {
        if is_begun(word, whole) {
            return Some(whole);
        }
    }
    None
}

fn is_begun(word: &str, whole: &str) -> bool
    ensures { result ≡ is_begun word.now whole.now }
{
    whole.as_bytes().starts_with(word.as_bytes())
}

/// Asks whether a known word is meant by another.
pub(crate) fn meant_words(alloc: Global, word: &str, known: &str) -> Result<Text, Memory>
    ensures { IfOk result (λ words. words ≡ meant_words word.now known.now) }
{
    let word = shown(alloc, word)?;
    let words = format!(in alloc; "{word}: is {known} meant?")?;
    Ok(Text::from_string(words))
}
