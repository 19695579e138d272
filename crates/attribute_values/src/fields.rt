ghost use Rattle.std.specs.Prelude.{◌≡◌, ◌++◌, ◌∷◌, [], Err, IfOk, None, Ok, OnOk, if◌then◌else◌, map};
ghost use Rattle.std.specs.Option.{option_to_list};
ghost use Rattle.tree_base.specs.Entries.{HasDistinctKeys};
ghost use Rattle.tree_base.specs.declared.Step.TheVariants.{Key};
ghost use Rattle.tree_base.specs.declared.Tree.{Tree};
ghost use Rattle.attribute_types.specs.Answers.{Gives, refused, under};
ghost use Rattle.attribute_types.specs.Tables.{seen_line};
ghost use Rattle.attribute_types.specs.declared.refusal.Fault.{Fault};
ghost use Rattle.attribute_values.specs.Fields.{field_of, fields_of};
ghost use Rattle.attribute_scalars.specs.Views.{behind, if_one, onto, seen_entry};
ghost use Rattle.attribute_scalars.specs.Walks.{each_entry, is_in, with_wanting};

use crate::forms::plain_value;
use attribute_scalars::{Entry, in_byte_order, is_null, refused, under_key, value_among};
use attribute_types::{Attribute, AttributeRefusal, Fault, Line, Value, plain_of};
use std::alloc::Global;
use tree_base::{List, Memory, Text, Tree};

/// The attributes of entries by a table, in byte order of their names, where those of some names have to be there; or the
/// first that is refused, of those that stand there and those that are wanting.
pub fn fields_of(
    alloc: Global,
    lines: &[Line],
    wanted: &[&str],
    entries: &[Entry],
) -> Result<List<Attribute>, AttributeRefusal>
    requires { HasDistinctKeys (map seen_entry entries.now) }
    ensures { Gives result (fields_of (map seen_line lines.now)
        (map (λ name. name.now) wanted.now) (map seen_entry entries.now)) }
{
    let nothing = Tree::Null;
    let sorted = in_byte_order(with_wanting(alloc, wanted, entries, &nothing)?)?;
    fields_among(alloc, lines, wanted, entries, sorted.as_slice())
}

/// The attributes of entries, in their order.
fn fields_among(
    alloc: Global,
    lines: &[Line],
    wanted: &[&str],
    beside: &[Entry],
    entries: &[Entry],
) -> Result<List<Attribute>, AttributeRefusal>
    ensures { Gives result (each_entry
        (field_of (map seen_line lines.now) (map (λ name. name.now) wanted.now)
        (map seen_entry beside.now)) (map seen_entry entries.now)) }
{
    let mut attributes = List::new(alloc);
    for entry in entries {
        put_field(alloc, lines, wanted, beside, entry, &mut attributes)?;
    }
    Ok(attributes)
}

/// Entries, with null under each of some names that has nothing.
pub fn with_wanting<'a>(
    alloc: Global,
    wanted: &[&'a str],
    entries: &[Entry<'a>],
    nothing: &'a Tree,
) -> Result<Vec<Entry<'a>>, Memory>
    requires null { nothing.now ≡ Tree.Null }
    requires keys { HasDistinctKeys (map seen_entry entries.now) }
    ensures value { IfOk result (λ all. map seen_entry all.items
        ≡ with_wanting (map (λ name. name.now) wanted.now) (map seen_entry entries.now)) }
    ensures distinct { IfOk result (λ all. HasDistinctKeys (map seen_entry all.items)) }
{
    let mut all = Vec::with_capacity(alloc, entries.len())?;
    all.extend_from_slice(entries)?;
    for name in wanted {
        put_wanting(&mut all, *name, nothing)?;
    }
    Ok(all)
}

/// Puts null last under a name that has nothing.
fn put_wanting<'a>(all: &mut Vec<Entry<'a>>, name: &'a str, nothing: &'a Tree) -> Result<(), Memory>
    requires null { nothing.now ≡ Tree.Null }
    requires keys { HasDistinctKeys (map seen_entry all.old.items) }
    ensures value { OnOk result (map seen_entry all.new.items
        ≡ with_wanting (name.now ∷ []) (map seen_entry all.old.items)) }
    ensures distinct { OnOk result (HasDistinctKeys (map seen_entry all.new.items)) }
{
    if let Some(_) = value_among(all.as_slice(), name) {
        return Ok(());
    }
    all.push(Entry {
        key: name,
        value: nothing,
    })?;
    Ok(())
}

/// Puts the attribute of an entry last, where it has one.
fn put_field(
    alloc: Global,
    lines: &[Line],
    wanted: &[&str],
    beside: &[Entry],
    entry: &Entry,
    attributes: &mut List<Attribute>,
) -> Result<(), AttributeRefusal>
    ensures { Gives (onto attributes.new result)
        (behind attributes.old (under (Key entry.now.key.now)
        (field_of (map seen_line lines.now) (map (λ name. name.now) wanted.now)
        (map seen_entry beside.now) entry.now.key.now entry.now.value.now))) }
{
    match field_of(alloc, lines, wanted, beside, entry) {
        Ok(found) => Ok(put(attributes, found)?),
        Err(refusal) => Err(under_key(alloc, entry.key, refusal)),
    }
}

fn put(attributes: &mut List<Attribute>, found: Option<Attribute>) -> Result<(), Memory>
    ensures { OnOk result (attributes.new ≡ attributes.old ++ option_to_list found) }
{
    match found {
        Some(attribute) => attributes.push(attribute),
        None => Ok(()),
    }
}

/// The attribute of an entry by a table.
#[tactic(auto, using(crate::proofs::Nulls::not_null, crate::proofs::Nulls::null_so))]
fn field_of(
    alloc: Global,
    lines: &[Line],
    wanted: &[&str],
    beside: &[Entry],
    entry: &Entry,
) -> Result<Option<Attribute>, AttributeRefusal>
    ensures { Gives (if_one result)
        (field_of (map seen_line lines.now) (map (λ name. name.now) wanted.now)
        (map seen_entry beside.now) entry.now.key.now entry.now.value.now) }
{
    let Some(plain) = plain_of(lines, entry.key) else {
        return Err(refused(alloc, Fault::UnknownAttribute));
    };
    if is_null(entry.value) {
        return unless_wanted(alloc, wanted, entry.key);
    }
    match plain_value(alloc, plain, beside, entry.value)? {
        Some(value) => Ok(Some(named(alloc, entry.key, value)?)),
        None => Ok(None),
    }
}

/// What null is: absence, and refused where a value is wanted.
pub fn unless_wanted(
    alloc: Global,
    wanted: &[&str],
    name: &str,
) -> Result<Option<Attribute>, AttributeRefusal>
    ensures { result ≡ (if is_in (map (λ name. name.now) wanted.now) name.now
        then refused Fault.BadValue else Ok None) }
{
    if is_wanted(wanted, name) {
        Err(refused(alloc, Fault::BadValue))
    } else {
        Ok(None)
    }
}

fn is_wanted(wanted: &[&str], name: &str) -> bool
    ensures { result ≡ is_in (map (λ name. name.now) wanted.now) name.now }
{
    wanted.iter().any(|other| name == *other)
}

/// The attribute of a value under a name.
pub fn named(alloc: Global, name: &str, value: Value) -> Result<Attribute, Memory>
    ensures { IfOk result (λ attribute. attribute ≡ record { name = name.now; value = value }) }
{
    match Text::from_str(alloc, name) {
        Ok(name) => Ok(Attribute { name, value }),
        Err(Memory) => {
            drop(value);
            Err(Memory)
        }
    }
}
