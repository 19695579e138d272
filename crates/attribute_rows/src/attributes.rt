ghost use Rattle.std.specs.Prelude.{◌≡◌, ◌++◌, Bool, Ok, OnOk, Some, false, map};
ghost use Rattle.std.specs.Option.{option_to_list};
ghost use Rattle.tree_base.specs.Entries.{HasDistinctKeys};
ghost use Rattle.tree_base.specs.declared.Step.TheVariants.{Key};
ghost use Rattle.attribute_types.specs.Answers.{Gives, under};
ghost use Rattle.attribute_scalars.specs.Views.{behind, if_one, onto, seen_entry};
ghost use Rattle.attribute_scalars.specs.Walks.{Entries, each_entry, is_in, is_null, is_there};
ghost use Rattle.tree_base.specs.declared.Tree.{Tree, out-Tree};
ghost use Rattle.tree_base.specs.declared.Tree.TheOpen.{Tree-F};
ghost use Rattle.attribute_rows.specs.Attributes.{attribute_by, attribute_under, attributes_from, attributes_of, form_value, wanted_of_service};

use crate::row::row_value;
use attribute_scalars::{
    Entry, in_byte_order, is_null, own_entries_of, refused, under_key, value_among,
};
use attribute_types::{Attribute, AttributeRefusal, Fault, Form, Value, form_of};
use attribute_values::{named, plain_value, unless_wanted, with_wanting};
use std::alloc::Global;
use tree_base::{List, Map, Memory, Tree};

/// What a service has to have, and what one that is built.
const OF_SERVICE: [&str; 1] = ["image"];

const OF_BUILT: [&str; 0] = [];

/// The attributes of a service, in byte order of their names, or the first that is refused, with its path from the service
/// down. Names that begin with `x-` are passed over, and a service without `build` has an `image`.
pub fn attributes_of(alloc: Global, entries: &Map) -> Result<List<Attribute>, AttributeRefusal>
    ensures { Gives result (attributes_of entries.now) }
{
    let own = own_entries_of(alloc, entries)?;
    attributes_from(alloc, own.as_slice())
}

fn attributes_from(alloc: Global, entries: &[Entry]) -> Result<List<Attribute>, AttributeRefusal>
    requires { HasDistinctKeys (map seen_entry entries.now) }
    ensures { Gives result (attributes_from (map seen_entry entries.now)) }
{
    let nothing = Tree::Null;
    let wanted = wanted_of_service(entries);
    let sorted = in_byte_order(with_wanting(alloc, wanted, entries, &nothing)?)?;
    attributes_among(alloc, wanted, entries, sorted.as_slice())
}

/// The attributes of entries, in their order.
fn attributes_among(
    alloc: Global,
    wanted: &[&str],
    beside: &[Entry],
    entries: &[Entry],
) -> Result<List<Attribute>, AttributeRefusal>
    ensures { Gives result (each_entry
        (attribute_under (map (λ name. name.now) wanted.now) (map seen_entry beside.now))
        (map seen_entry entries.now)) }
{
    let mut attributes = List::new(alloc);
    for entry in entries {
        put_attribute(alloc, wanted, beside, entry, &mut attributes)?;
    }
    Ok(attributes)
}

/// What a service has to have: an image, unless it is built.
fn wanted_of_service(entries: &[Entry]) -> &'static [&'static str]
    ensures { map (λ name. name.now) result.now ≡ wanted_of_service (map seen_entry entries.now) }
{
    if is_there(entries, "build") {
        &OF_BUILT
    } else {
        &OF_SERVICE
    }
}

fn is_there(entries: &[Entry], key: &str) -> bool
    ensures { result ≡ is_there (map seen_entry entries.now) key.now }
{
    match value_among(entries, key) {
        Some(tree) => !is_null(tree),
        None => false,
    }
}

/// Puts the attribute of an entry last, where it has one.
fn put_attribute(
    alloc: Global,
    wanted: &[&str],
    beside: &[Entry],
    entry: &Entry,
    attributes: &mut List<Attribute>,
) -> Result<(), AttributeRefusal>
    ensures { Gives (onto attributes.new result)
        (behind attributes.old (under (Key entry.now.key.now)
        (attribute_under (map (λ name. name.now) wanted.now) (map seen_entry beside.now)
        entry.now.key.now entry.now.value.now))) }
{
    match attribute_of(alloc, wanted, beside, entry) {
        Ok(found) => Ok(put(attributes, found)?),
        Err(refusal) => Err(under_key(alloc, entry.key, refusal)),
    }
}

fn put(attributes: &mut List<Attribute>, found: Option<Attribute>) -> Result<(), Memory>
    ensures { OnOk result (attributes.new ≡ attributes.old ++ option_to_list found) }
{
    match found {
        Some(attribute) => attributes.push(attribute),
        None => Ok(()),
    }
}

/// The attribute of an entry of a service.
fn attribute_of(
    alloc: Global,
    wanted: &[&str],
    beside: &[Entry],
    entry: &Entry,
) -> Result<Option<Attribute>, AttributeRefusal>
    ensures { Gives (if_one result)
        (attribute_under (map (λ name. name.now) wanted.now) (map seen_entry beside.now)
        entry.now.key.now entry.now.value.now) }
{
    let Some(form) = form_of(entry.key) else {
        return Err(refused(alloc, Fault::UnknownAttribute));
    };
    if is_null(entry.value) {
        return of_null(alloc, form, wanted, entry.key);
    }
    match form_value(alloc, form, beside, entry.value)? {
        Some(value) => Ok(Some(named(alloc, entry.key, value)?)),
        None => Ok(None),
    }
}

/// What null is at an attribute: nothing where loading has made use of it, and else absence.
fn of_null(
    alloc: Global,
    form: Form,
    wanted: &[&str],
    name: &str,
) -> Result<Option<Attribute>, AttributeRefusal>
    ensures { (beside : Entries) → (tree : Tree) → out-Tree tree ≡ Tree-F.Null
        → if_one result ≡ attribute_by (Some form)
        (is_in (map (λ name. name.now) wanted.now) name.now) beside name.now tree }
{
    match form {
        Form::Plain(_) | Form::Own(_) => unless_wanted(alloc, wanted, name),
        Form::Consumed => Ok(None),
    }
}

/// What stands at an attribute that isn't null, by its form.
fn form_value(
    alloc: Global,
    form: Form,
    beside: &[Entry],
    tree: &Tree,
) -> Result<Option<Value>, AttributeRefusal>
    requires { is_null (out-Tree tree.now) ≡ false }
    ensures { (wanted : Bool) → Gives result
        (form_value form wanted (map seen_entry beside.now) tree.now) }
{
    match form {
        Form::Plain(plain) => plain_value(alloc, plain, beside, tree),
        Form::Own(row) => row_value(alloc, row, tree),
        Form::Consumed => Ok(None),
    }
}
