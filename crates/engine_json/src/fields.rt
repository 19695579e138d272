ghost use Rattle.std.specs.Prelude.{◌≡◌, ◌++◌, [], ◌∷◌, IfOk, OnOk, map, option_map};
ghost use Rattle.std.specs.String.{string_bytes};
ghost use Rattle.std.specs.Option.{option_copied};
ghost use Rattle.response_rules.specs.Json.{of_each, pair_of, pairs_of, text_at, text_or_null};
ghost use Rattle.serde_json.specs.View.{view};

use engine_types::Pairs;
use serde_json::{Map, Value};
use std::alloc::Global;
use tree_base::{List, Memory, Text, Var};

/// The text under a key of an object; None where it is no object, has no such key, or no text there. No memory.
pub fn text_at<'v>(value: &'v Value, key: &str) -> Option<&'v str>
    ensures { option_map (λ text. text.now) result ≡ text_at key.now (view value.now) }
{
    value.get(key)?.as_str()
}

/// A text, and the empty one for null; None for anything else.
fn text_or_null(value: &Value) -> Option<&str>
    ensures { option_map (λ text. text.now) result ≡ text_or_null (view value.now) }
{
    match value {
        Value::Null => Some(""),
        Value::String(text) => Some(text.as_str()),
        _ => None,
    }
}

/// Names with their values in byte order: of an object of texts and nulls, and none of null; None for anything else.
pub(crate) fn pairs_of(alloc: Global, value: &Value) -> Result<Option<Pairs>, Memory>
    ensures { IfOk result (λ pairs. pairs ≡ pairs_of (view value.now)) }
{
    match value {
        Value::Null => Ok(Some(List::new(alloc))),
        Value::Object(members) => pairs_in(alloc, members),
        _ => Ok(None),
    }
}

/// The same of an object.
fn pairs_in(alloc: Global, members: &Map<String, Value>) -> Result<Option<Pairs>, Memory>
    ensures { IfOk result (λ pairs. pairs
        ≡ of_each pair_of (map (λ m. (string_bytes m.0, view m.1)) members.now.entries)) }
{
    let mut pairs = List::new(alloc);
    for (name, value) in members {
        let Some(value) = text_or_null(value) else {
            return Ok(None);
        };
        push_pair(alloc, &mut pairs, name, value)?;
    }
    Ok(Some(pairs))
}

/// Puts a name with its value last.
fn push_pair(alloc: Global, pairs: &mut Pairs, name: &str, value: &str) -> Result<(), Memory>
    ensures { OnOk result (pairs.new ≡ pairs.old
        ++ record { name = name.now; value = value.now } ∷ []) }
{
    let name = Text::from_str(alloc, name)?;
    let value = Text::from_str(alloc, value)?;
    pairs.push(Var { name, value })
}
