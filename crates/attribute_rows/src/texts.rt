ghost use Rattle.std.specs.Prelude.{◌≡◌, IfOk, unwrap_or};
ghost use Rattle.attribute_types.specs.Lookups.{text_at, texts_at};

use attribute_types::{Attribute, text_named, texts_named};
use std::alloc::Global;
use tree_base::{List, Memory, Text, TryCopy};

/// A copy of the text under a name, where there is one.
pub(crate) fn text_in(
    alloc: Global,
    attributes: &[Attribute],
    name: &str,
) -> Result<Option<Text>, Memory>
    ensures { IfOk result (λ text. text ≡ text_at attributes.now name.now) }
{
    match text_named(attributes, name) {
        Some(text) => Ok(Some(text.copy(alloc)?)),
        None => Ok(None),
    }
}

/// A copy of the text under a name, or else another one.
pub(crate) fn text_or(
    alloc: Global,
    attributes: &[Attribute],
    name: &str,
    otherwise: &str,
) -> Result<Text, Memory>
    ensures { IfOk result (λ text.
        text ≡ unwrap_or (text_at attributes.now name.now) otherwise.now) }
{
    match text_named(attributes, name) {
        Some(text) => text.copy(alloc),
        None => Text::from_str(alloc, otherwise),
    }
}

/// A copy of the texts under a name, where there are some.
pub(crate) fn texts_in(
    alloc: Global,
    attributes: &[Attribute],
    name: &str,
) -> Result<Option<List<Text>>, Memory>
    ensures { IfOk result (λ texts. texts ≡ texts_at attributes.now name.now) }
{
    match texts_named(attributes, name) {
        Some(texts) => Ok(Some(texts.copy(alloc)?)),
        None => Ok(None),
    }
}
