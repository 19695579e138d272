ghost use Rattle.std.specs.Prelude.{◌≡◌, ◌∷◌, [], IfOk, Ok, codes, unwrap_or, ◌++◌, map};
ghost use Rattle.tree_base.specs.declared.Step.TheVariants.{Key};
ghost use Rattle.tree_base.specs.declared.Tree.{out-Tree};
ghost use Rattle.attribute_types.specs.Answers.{Gives, under};
ghost use Rattle.attribute_scalars.specs.Views.{behind, just_one, onto, seen_entry};
ghost use Rattle.attribute_scalars.specs.Walks.{each_entry};
ghost use Rattle.attribute_rows.specs.Rows.{keyed, network_use_of};
ghost use Rattle.attribute_types.specs.Lookups.{texts_at};

use crate::entries::{NO_NAMES, fields_in, map_of, sorted_entries};
use crate::texts::texts_in;
use attribute_scalars::{Entry, is_null, under_key};
use attribute_types::{Attribute, AttributeRefusal, NetworkUse, network_use_lines};
use std::alloc::Global;
use tree_base::{List, Memory, Text, Tree};

/// The networks of a mapping, in byte order of their keys.
pub(crate) fn network_uses_of(
    alloc: Global,
    tree: &Tree,
) -> Result<List<NetworkUse>, AttributeRefusal>
    ensures { Gives result (keyed network_use_of (out-Tree tree.now)) }
{
    let sorted = sorted_entries(alloc, map_of(alloc, tree)?)?;
    network_uses_in(alloc, sorted.as_slice())
}

/// The networks of entries, in their order.
fn network_uses_in(alloc: Global, entries: &[Entry]) -> Result<List<NetworkUse>, AttributeRefusal>
    ensures { Gives result (each_entry
        (λ key value. network_use_of key (out-Tree value)) (map seen_entry entries.now)) }
{
    let mut list = List::new(alloc);
    for entry in entries {
        put_network_use(alloc, entry, &mut list)?;
    }
    Ok(list)
}

/// Puts what an entry gives last, or refuses it under its key.
fn put_network_use(
    alloc: Global,
    entry: &Entry,
    list: &mut List<NetworkUse>,
) -> Result<(), AttributeRefusal>
    ensures { Gives (onto list.new result)
        (behind list.old (under (Key entry.now.key.now)
        (network_use_of entry.now.key.now (out-Tree entry.now.value.now)))) }
{
    match network_use_of(alloc, entry.key, entry.value) {
        Ok(one) => Ok(list.push(one)?),
        Err(refusal) => Err(under_key(alloc, entry.key, refusal)),
    }
}

/// A network that is joined under its key; null joins it under no further name.
fn network_use_of(alloc: Global, key: &str, tree: &Tree) -> Result<NetworkUse, AttributeRefusal>
    ensures { Gives (just_one result) (network_use_of key.now (out-Tree tree.now)) }
{
    if is_null(tree) {
        return Ok(joined(alloc, key, &[])?);
    }
    let attributes = fields_in(alloc, network_use_lines(), &NO_NAMES, tree)?;
    Ok(joined(alloc, key, attributes.as_slice())?)
}

fn joined(alloc: Global, key: &str, attributes: &[Attribute]) -> Result<NetworkUse, Memory>
    ensures { IfOk result (λ one. one ≡ record {
      key = key.now;
      aliases = unwrap_or (texts_at attributes.now (codes "aliases")) [];
    }) }
{
    let aliases = match texts_in(alloc, attributes, "aliases")? {
        Some(aliases) => aliases,
        None => List::new(alloc),
    };
    Ok(NetworkUse {
        aliases,
        key: Text::from_str(alloc, key)?,
    })
}
