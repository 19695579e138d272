ghost use Rattle.std.specs.Prelude.{◌≡◌, ◌&&◌, ◌∷◌, filter, is_some, not};
ghost use Rattle.std.specs.List.{list_any};
ghost use Rattle.std.specs.Option.{option_map};
ghost use Rattle.std.specs.Str.{bytes_eq, str_to_ascii_lowercase};
ghost use Rattle.active_services.specs.Profiles.{Entries, is_disabled, is_enabled, is_optional, is_refused, is_unmet, says_no, unmet_need, words_for_no};
ghost use Rattle.tree_base.specs.ByteOrder.{least_by};
ghost use Rattle.tree_base.specs.declared.Tree.{out-Tree};

use crate::attribute::{attribute_at, needs_of};
use crate::enabled::is_enabled;
use tree_base::{Map, Text, Tree};

/// The words that say no.
const WORDS_FOR_NO: [&str; 4] = ["false", "no", "off", "n"];

/// An entry of a mapping.
type Entry<'a> = (&'a Text, &'a Tree);

/// The first service, in byte order, that is enabled and has a dependency that can't be met. The services are gone
/// through from the last one. No memory.
pub(crate) fn least_refused<'a>(profiles: &[Text], services: &'a Map) -> Option<Entry<'a>>
    ensures { option_map (λ service. (service.0.now, service.1.now)) result
        ≡ least_by (λ service. service.0)
        (filter (λ service. is_refused (is_enabled profiles.now) services.now service.1)
        services.now) }
{
    let mut least = None;
    let mut left = services.len();
    while left > 0 {
        left -= 1;
        if let Some((name, service)) = services.pair(left) {
            least = lesser_refused(profiles, services, name, service, least);
        }
    }
    least
}

/// Of a service and the least refused one of those behind it the least refused one.
fn lesser_refused<'a>(
    profiles: &[Text],
    services: &Map,
    name: &'a Text,
    service: &'a Tree,
    behind: Option<Entry<'a>>,
) -> Option<Entry<'a>>
    ensures { (more : Entries)
        → option_map (λ e. (e.0.now, e.1.now)) behind.entry ≡ least_by (λ e. e.0)
        (filter (λ e. is_refused (is_enabled profiles.now) services.now e.1) more)
        → option_map (λ e. (e.0.now, e.1.now)) result ≡ least_by (λ e. e.0)
        (filter (λ e. is_refused (is_enabled profiles.now) services.now e.1)
        ((name.now, service.now) ∷ more)) }
{
    if !is_refused(profiles, services, service) {
        return behind;
    }
    match behind {
        Some((other, found)) if other < name => Some((other, found)),
        _ => Some((name, service)),
    }
}

/// The first dependency of a service, in byte order, that can't be met. No memory.
pub(crate) fn unmet_need<'a>(
    profiles: &[Text],
    services: &Map,
    service: &'a Tree,
) -> Option<Entry<'a>>
    ensures { option_map (λ need. (need.0.now, need.1.now)) result
        ≡ unmet_need (is_enabled profiles.now) services.now service.now }
{
    match needs_of(service) {
        Some(needs) => least_unmet(profiles, services, needs),
        None => None,
    }
}

/// The first of dependencies, in byte order, that can't be met. They are gone through from the last one.
fn least_unmet<'a>(profiles: &[Text], services: &Map, needs: &'a Map) -> Option<Entry<'a>>
    ensures { option_map (λ need. (need.0.now, need.1.now)) result
        ≡ least_by (λ need. need.0)
        (filter (is_unmet (is_enabled profiles.now) services.now) needs.now) }
{
    let mut least = None;
    let mut left = needs.len();
    while left > 0 {
        left -= 1;
        if let Some((name, need)) = needs.pair(left) {
            least = lesser_unmet(profiles, services, name, need, least);
        }
    }
    least
}

/// Of a dependency and the least one behind it that can't be met the least that can't.
fn lesser_unmet<'a>(
    profiles: &[Text],
    services: &Map,
    name: &'a Text,
    need: &'a Tree,
    behind: Option<Entry<'a>>,
) -> Option<Entry<'a>>
    ensures { (more : Entries)
        → option_map (λ e. (e.0.now, e.1.now)) behind.entry
        ≡ least_by (λ e. e.0) (filter (is_unmet (is_enabled profiles.now) services.now) more)
        → option_map (λ e. (e.0.now, e.1.now)) result ≡ least_by (λ e. e.0)
        (filter (is_unmet (is_enabled profiles.now) services.now)
        ((name.now, need.now) ∷ more)) }
{
    if !is_unmet(profiles, services, name, need) {
        return behind;
    }
    match behind {
        Some((other, found)) if other < name => Some((other, found)),
        _ => Some((name, need)),
    }
}

/// Whether a service is enabled, and one of its dependencies can't be met.
fn is_refused(profiles: &[Text], services: &Map, service: &Tree) -> bool
    ensures { result ≡ is_refused (is_enabled profiles.now) services.now service.now }
{
    is_enabled(profiles, service) && unmet_need(profiles, services, service).is_some()
}

/// Whether a dependency is required, and its service is there and isn't enabled.
fn is_unmet(profiles: &[Text], services: &Map, name: &Text, need: &Tree) -> bool
    ensures { result ≡ is_unmet (is_enabled profiles.now) services.now (name.now, need.now) }
{
    is_disabled(profiles, services, name) && !is_optional(need)
}

/// Whether a service of this name is there and isn't enabled.
pub(crate) fn is_disabled(profiles: &[Text], services: &Map, name: &Text) -> bool
    ensures { result ≡ is_disabled (is_enabled profiles.now) services.now name.now }
{
    match services.get(name) {
        Some(service) => !is_enabled(profiles, service),
        None => false,
    }
}

/// Whether the `required` of a dependency says no.
fn is_optional(need: &Tree) -> bool
    ensures { result ≡ is_optional need.now }
{
    match attribute_at(need, "required") {
        Some(word) => says_no(word),
        None => false,
    }
}

fn says_no(tree: &Tree) -> bool
    ensures { result ≡ says_no (out-Tree tree.now) }
{
    match tree {
        Tree::Scalar(word) => is_word_for_no(word.as_str()),
        _ => false,
    }
}

fn is_word_for_no(text: &str) -> bool
    ensures { result ≡ list_any (bytes_eq (str_to_ascii_lowercase text.now)) words_for_no }
{
    is_one_of(text, &WORDS_FOR_NO)
}

fn is_one_of(text: &str, words: &[&str]) -> bool
    ensures { result ≡ list_any (λ word. bytes_eq (str_to_ascii_lowercase text.now)
        (str_to_ascii_lowercase word.now)) words.now }
{
    words.iter().any(|word| is_same_word(text, word))
}

fn is_same_word(text: &str, word: &str) -> bool
    ensures { result ≡ bytes_eq (str_to_ascii_lowercase text.now)
        (str_to_ascii_lowercase word.now) }
{
    text.eq_ignore_ascii_case(word)
}
