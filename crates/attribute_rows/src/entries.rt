ghost use Rattle.std.specs.Prelude.{◌≡◌, IfOk, map};
ghost use Rattle.std.specs.Result.{result_map_both};
ghost use Rattle.tree_base.specs.declared.Tree.{out-Tree};
ghost use Rattle.attribute_types.specs.Answers.{Gives};
ghost use Rattle.attribute_types.specs.Tables.{seen_line};
ghost use Rattle.attribute_values.specs.Fields.{fields_of};
ghost use Rattle.attribute_scalars.specs.Views.{seen_entry};
ghost use Rattle.attribute_scalars.specs.Walks.{in_byte_order};
ghost use Rattle.attribute_rows.specs.Rows.{entries_in, in_mapping};

use attribute_scalars::{Entry, entries_of, in_byte_order, refused};
use attribute_types::{Attribute, AttributeRefusal, Fault, Line};
use attribute_values::fields_of;
use std::alloc::Global;
use tree_base::{List, Map, Memory, Tree};

/// No name has to be there.
pub(crate) const NO_NAMES: [&str; 0] = [];

/// The entries of a mapping; another tree is of another kind.
pub fn map_of(alloc: Global, tree: &Tree) -> Result<&Map, AttributeRefusal>
    ensures { Gives (result_map_both (λ seen. seen.now) (λ refusal. refusal) result)
        (entries_in (out-Tree tree.now)) }
{
    match tree {
        Tree::Map(entries) => Ok(entries.get()),
        _ => Err(refused(alloc, Fault::WrongKind)),
    }
}

/// The entries of a mapping, in byte order of their keys.
pub fn sorted_entries(alloc: Global, entries: &Map) -> Result<Vec<Entry>, Memory>
    ensures { IfOk result (λ sorted. map seen_entry sorted.items ≡ in_byte_order entries.now) }
{
    in_byte_order(entries_of(alloc, entries)?)
}

/// The attributes of a mapping by a table, where some have to be there.
pub(crate) fn fields_in(
    alloc: Global,
    lines: &[Line],
    wanted: &[&str],
    tree: &Tree,
) -> Result<List<Attribute>, AttributeRefusal>
    ensures { Gives result (in_mapping
        (fields_of (map seen_line lines.now) (map (λ name. name.now) wanted.now))
        (out-Tree tree.now)) }
{
    let entries = map_of(alloc, tree)?;
    let list = entries_of(alloc, entries)?;
    fields_of(alloc, lines, wanted, list.as_slice())
}
