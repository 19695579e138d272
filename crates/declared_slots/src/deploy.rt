ghost use Rattle.std.specs.Prelude.{◌≡◌, codes};
ghost use Rattle.std.specs.Option.{option_and_then, option_copied};
ghost use Rattle.tree_base.specs.declared.Tree.{out-Tree};
ghost use Rattle.attribute_values.specs.Forms.{count_of, entries_of};
ghost use Rattle.declared_slots.specs.Counts.{as_mapping, bound_of, replicas_of, roll_of, text_within, updates_of};
ghost use Rattle.attribute_scalars.specs.Scalars.{num_of, text_in};

use attribute_scalars::{num_of, text_of};
use short_forms::number;
use tree_base::limits::MOST_CONTAINERS;
use tree_base::{Map, Text, Tree};
use typed_project::Service;

/// `replicas` of a service's `deploy`. No memory.
pub(crate) fn replicas_of(service: &Service) -> Option<u64>
    ensures { result ≡ replicas_of service.now }
{
    count_of(text_in("replicas", service.deploy()?)?)
}

/// The text under a key of a mapping.
fn text_in<'a>(key: &str, tree: &'a Tree) -> Option<&'a Text>
    ensures { option_copied result ≡ text_within key.now tree.now }
{
    match tree {
        Tree::Map(entries) => text_of(entries.get().find(key)?),
        _ => None,
    }
}

/// A number of a service's containers.
fn count_of(text: &Text) -> Option<u64>
    ensures { result ≡ count_of text.now }
{
    number(text.as_str().as_bytes(), MOST_CONTAINERS as u64)
}

/// How many containers of a service a rolling update replaces at a time: at least one. None where it replaces all at once.
/// No memory.
pub fn roll(service: &Service) -> Option<u32>
    ensures { result ≡ roll_of service.now }
{
    let updates = updates_of(service)?;
    match updates.find("parallelism") {
        Some(tree) => bound_of(number_in(tree).unwrap_or(1)),
        None => bound_of(1),
    }
}

/// `update_config` of a service's `deploy`.
fn updates_of(service: &Service) -> Option<&Map>
    ensures { option_copied result ≡ updates_of service.now }
{
    match service.deploy()? {
        Tree::Map(entries) => mapping_in(entries.get().find("update_config")?),
        _ => None,
    }
}

fn mapping_in(tree: &Tree) -> Option<&Map>
    ensures { option_copied result ≡ as_mapping (out-Tree tree.now) }
{
    match tree {
        Tree::Map(entries) => Some(entries.get()),
        _ => None,
    }
}

fn number_in(tree: &Tree) -> Option<u64>
    ensures { result ≡ option_and_then num_of (text_in (out-Tree tree.now)) }
{
    num_of(text_of(tree)?.as_str())
}

/// So many at a time; None for zero.
fn bound_of(number: u64) -> Option<u32>
    ensures { result ≡ bound_of number }
{
    if number == 0 {
        return None;
    }
    Some(u32::try_from(number).unwrap_or(u32::MAX))
}
