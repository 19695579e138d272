ghost use Rattle.std.specs.Prelude.{◌≡◌, ◌||◌, true, codes};
ghost use Rattle.std.specs.List.{list_any};
ghost use Rattle.std.specs.Option.{option_map_or};
ghost use Rattle.active_services.specs.Profiles.{attribute_at, enables, is_enabled, is_given, names_given};
ghost use Rattle.tree_base.specs.declared.Tree.{out-Tree};

use crate::attribute::attribute_at;
use tree_base::{Text, Tree};

/// The profile that enables every service.
const EVERY_SERVICE: &str = "*";

/// Whether profiles enable a service: one that names none, or one of those that are given; and each, where `*` is. No
/// memory.
pub(crate) fn is_enabled(profiles: &[Text], service: &Tree) -> bool
    ensures { result ≡ is_enabled profiles.now service.now }
{
    is_given(profiles, EVERY_SERVICE) || has_given_profile(profiles, service)
}

fn has_given_profile(profiles: &[Text], service: &Tree) -> bool
    ensures { result ≡ option_map_or (λ names. enables profiles.now (out-Tree names))
        (attribute_at (codes "profiles") (out-Tree service.now)) true }
{
    match attribute_at(service, "profiles") {
        Some(names) => enables(profiles, names),
        None => true,
    }
}

/// Whether what stands at `profiles` enables its service.
fn enables(profiles: &[Text], names: &Tree) -> bool
    ensures { result ≡ enables profiles.now (out-Tree names.now) }
{
    match names {
        Tree::Seq(items) => items.as_slice().is_empty() || any_given(profiles, items.as_slice()),
        _ => true,
    }
}

fn any_given(profiles: &[Text], items: &[Tree]) -> bool
    ensures { result ≡ list_any (λ item. names_given profiles.now (out-Tree item)) items.now }
{
    items.iter().any(|item| names_given(profiles, item))
}

/// Whether an item of `profiles` is the name of one that is given.
fn names_given(profiles: &[Text], item: &Tree) -> bool
    ensures { result ≡ names_given profiles.now (out-Tree item.now) }
{
    match item {
        Tree::Scalar(name) => is_given(profiles, name.as_str()),
        _ => false,
    }
}

/// Whether a profile is among those of the call.
fn is_given(profiles: &[Text], name: &str) -> bool
    ensures { result ≡ is_given profiles.now name.now }
{
    profiles.iter().any(|profile| name == profile.as_str())
}
