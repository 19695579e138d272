ghost use Rattle.std.specs.Prelude.{◌≡◌, [], IfOk, Ok, codes, unwrap_or, ◌++◌, map};
ghost use Rattle.tree_base.specs.declared.Step.TheVariants.{Key};
ghost use Rattle.tree_base.specs.declared.Tree.{out-Tree};
ghost use Rattle.attribute_types.specs.Answers.{Gives, under};
ghost use Rattle.attribute_scalars.specs.Views.{behind, if_one, onto, seen_entry};
ghost use Rattle.attribute_scalars.specs.Walks.{each_entry};
ghost use Rattle.attribute_rows.specs.Rows.{in_mapping, keyed, logging_of, ulimit_of};
ghost use Rattle.attribute_types.specs.Lookups.{pairs_at, text_at};
ghost use Rattle.std.specs.Option.{option_to_list};
ghost use Rattle.tree_base.specs.declared.Tree.TheOpen.{Tree-F};

use crate::entries::{NO_NAMES, fields_in, map_of, sorted_entries};
use crate::texts::text_in;
use attribute_scalars::{Entry, int_of, refused, under_key};
use attribute_types::{
    Attribute, AttributeRefusal, Fault, Logging, Ulimit, Value, int_named, logging_lines,
    pairs_named, ulimit_lines,
};
use std::alloc::Global;
use tree_base::{List, Memory, Text, TextMap, Tree, TryCopy};

const OF_LIMIT: [&str; 2] = ["hard", "soft"];

/// The limits of a mapping, in byte order of their keys.
pub(crate) fn ulimits_of(alloc: Global, tree: &Tree) -> Result<List<Ulimit>, AttributeRefusal>
    ensures { Gives result (keyed ulimit_of (out-Tree tree.now)) }
{
    let sorted = sorted_entries(alloc, map_of(alloc, tree)?)?;
    ulimits_in(alloc, sorted.as_slice())
}

/// The limits of entries, in their order.
fn ulimits_in(alloc: Global, entries: &[Entry]) -> Result<List<Ulimit>, AttributeRefusal>
    ensures { Gives result (each_entry
        (λ key value. ulimit_of key (out-Tree value)) (map seen_entry entries.now)) }
{
    let mut list = List::new(alloc);
    for entry in entries {
        put_ulimit(alloc, entry, &mut list)?;
    }
    Ok(list)
}

/// Puts what an entry gives last, or refuses it under its key.
fn put_ulimit(alloc: Global, entry: &Entry, list: &mut List<Ulimit>) -> Result<(), AttributeRefusal>
    ensures { Gives (onto list.new result)
        (behind list.old (under (Key entry.now.key.now)
        (ulimit_of entry.now.key.now (out-Tree entry.now.value.now)))) }
{
    match ulimit_of(alloc, entry.key, entry.value) {
        Ok(Some(limit)) => Ok(list.push(limit)?),
        Ok(None) => Ok(()),
        Err(refusal) => Err(under_key(alloc, entry.key, refusal)),
    }
}

/// A limit: one number for both, or both; null is none.
fn ulimit_of(alloc: Global, key: &str, tree: &Tree) -> Result<Option<Ulimit>, AttributeRefusal>
    ensures { Gives (if_one result)
        (ulimit_of key.now (out-Tree tree.now)) }
{
    match tree {
        Tree::Null => Ok(None),
        Tree::Map(_) => both_of(alloc, key, tree),
        Tree::Scalar(text) => match int_of(text) {
            Some(number) => Ok(Some(limit(alloc, key, number, number)?)),
            None => Err(refused(alloc, Fault::WrongKind)),
        },
        _ => Err(refused(alloc, Fault::WrongKind)),
    }
}

fn both_of(alloc: Global, key: &str, tree: &Tree) -> Result<Option<Ulimit>, AttributeRefusal>
    ensures { Gives (if_one result)
        (in_mapping (λ entries. ulimit_of key.now (Tree-F.Map entries)) (out-Tree tree.now)) }
{
    let attributes = fields_in(alloc, ulimit_lines(), &OF_LIMIT, tree)?;
    let soft = int_named(attributes.as_slice(), "soft");
    let hard = int_named(attributes.as_slice(), "hard");
    drop(attributes);
    match (soft, hard) {
        (Some(soft), Some(hard)) => Ok(Some(limit(alloc, key, soft, hard)?)),
        _ => Ok(None),
    }
}

fn limit(alloc: Global, key: &str, soft: i64, hard: i64) -> Result<Ulimit, Memory>
    ensures { IfOk result (λ limit.
        limit ≡ record { key = key.now; soft = soft; hard = hard }) }
{
    let key = Text::from_str(alloc, key)?;
    Ok(Ulimit { key, soft, hard })
}

/// Where output goes, where something is said of it.
pub(crate) fn logging_of(alloc: Global, tree: &Tree) -> Result<Option<Value>, AttributeRefusal>
    ensures { Gives result (logging_of (out-Tree tree.now)) }
{
    let attributes = fields_in(alloc, logging_lines(), &NO_NAMES, tree)?;
    if attributes.is_empty() {
        return Ok(None);
    }
    Ok(Some(Value::Logging(logging_from(alloc, attributes.as_slice())?)))
}

fn logging_from(alloc: Global, attributes: &[Attribute]) -> Result<Logging, Memory>
    ensures { IfOk result (λ logging. logging ≡ record {
      driver = text_at attributes.now (codes "driver");
      options = unwrap_or (pairs_at attributes.now (codes "options")) [];
    }) }
{
    let options = match pairs_named(attributes, "options") {
        Some(pairs) => pairs.copy(alloc)?,
        None => TextMap::new(alloc),
    };
    Ok(Logging {
        driver: text_in(alloc, attributes, "driver")?,
        options,
    })
}
