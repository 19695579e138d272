ghost use Rattle.std.specs.Prelude.{◌≡◌, ◌++◌, IfOk, codes, map};
ghost use Rattle.tree_base.specs.declared.Tree.{out-Tree};
ghost use Rattle.tree_base.specs.declared.Tree.TheOpen.{Tree-F};
ghost use Rattle.attribute_types.specs.Answers.{Gives};
ghost use Rattle.attribute_types.specs.Tables.{seen_line};
ghost use Rattle.project_meaning.specs.Meaning.{name_for, with_name};
ghost use Rattle.project_meaning.specs.Parts.{fields_under};

use crate::places::with_attribute;
use attribute_scalars::{own_entries_of, refused};
use attribute_types::{Attribute, AttributeRefusal, Fault, Line, Value, bool_named, value_named};
use attribute_values::{fields_of, named};
use std::alloc::Global;
use tree_base::{List, Map, Memory, Text, Tree};

/// The attributes of a mapping by a table, where some have to be there, and what extends a file is passed over; those of null
/// are those of an empty mapping.
pub(crate) fn fields_under(
    alloc: Global,
    lines: &[Line],
    wanted: &[&str],
    tree: &Tree,
) -> Result<List<Attribute>, AttributeRefusal>
    ensures { Gives result (fields_under (map seen_line lines.now)
        (map (λ name. name.now) wanted.now) (out-Tree tree.now)) }
{
    match tree {
        Tree::Null => fields_of(alloc, lines, wanted, &[]),
        Tree::Map(entries) => fields_in(alloc, lines, wanted, entries.get()),
        _ => Err(refused(alloc, Fault::WrongKind)),
    }
}

fn fields_in(
    alloc: Global,
    lines: &[Line],
    wanted: &[&str],
    entries: &Map,
) -> Result<List<Attribute>, AttributeRefusal>
    ensures { Gives result (fields_under (map seen_line lines.now)
        (map (λ name. name.now) wanted.now) (Tree-F.Map entries.now)) }
{
    let own = own_entries_of(alloc, entries)?;
    fields_of(alloc, lines, wanted, own.as_slice())
}

/// Attributes with a name in byte order, where none has it: that of what stands under a key of a project.
pub(crate) fn with_name(
    alloc: Global,
    project: &Text,
    key: &str,
    attributes: List<Attribute>,
) -> Result<List<Attribute>, Memory>
    ensures { IfOk result (λ all. all ≡ with_name project.now key.now attributes) }
{
    if value_named(attributes.as_slice(), "name").is_some() {
        return Ok(attributes);
    }
    let name = name_for(alloc, project, key, attributes.as_slice())?;
    let attribute = named(alloc, "name", Value::Text(name))?;
    with_attribute(attributes, attribute)
}

/// The name of what stands under a key of a project; what is external has its own.
fn name_for(
    alloc: Global,
    project: &Text,
    key: &str,
    attributes: &[Attribute],
) -> Result<Text, Memory>
    ensures { IfOk result (λ name. name ≡ name_for project.now key.now attributes.now) }
{
    if bool_named(attributes, "external").is_some() {
        Text::from_str(alloc, key)
    } else {
        name_in(alloc, project, key)
    }
}

/// The name of a project, and a key behind it.
pub(crate) fn name_in(alloc: Global, project: &Text, key: &str) -> Result<Text, Memory>
    ensures { IfOk result (λ name. name ≡ project.now ++ codes "_" ++ key.now) }
{
    let mut name = project.copy(alloc)?;
    name.push_str("_")?;
    name.push_str(key)?;
    Ok(name)
}
