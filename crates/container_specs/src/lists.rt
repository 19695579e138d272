ghost use Rattle.std.specs.Prelude.{◌≡◌, ◌++◌, ◌∷◌, [], IfOk, OnOk, unwrap_or};
ghost use Rattle.std.specs.Map.{keys_of};
ghost use Rattle.std.specs.Option.{option_copied, option_map_or};
ghost use Rattle.tree_base.specs.ByteOrder.{by_key, first_of_each};
ghost use Rattle.tree_base.specs.Entries.{with_entry};
ghost use Rattle.container_specs.specs.Lists.{each_once, unless_empty, var_of, vars_of};

use attribute_types::Pairs;
use std::alloc::Global;
use tree_base::{List, Memory, Text, TextMap, Var, copy_slice};

/// Texts in byte order, each once.
pub(crate) fn each_once(alloc: Global, texts: &[Text]) -> Result<List<Text>, Memory>
    ensures { IfOk result (λ once. once ≡ each_once texts.now) }
{
    let known = distinct(alloc, texts)?;
    in_byte_order(copy_slice(alloc, known.keys())?)
}

/// A map whose keys are the texts, each where it stands first.
fn distinct(alloc: Global, texts: &[Text]) -> Result<TextMap<()>, Memory>
    ensures { IfOk result (λ known. keys_of known ≡ first_of_each (λ text. text) texts.now) }
{
    let mut known = TextMap::new(alloc);
    for text in texts {
        put_key(alloc, &mut known, text)?;
    }
    Ok(known)
}

fn put_key(alloc: Global, known: &mut TextMap<()>, key: &Text) -> Result<(), Memory>
    ensures { OnOk result (known.new ≡ with_entry known.old key.now tt) }
{
    let key = key.copy(alloc)?;
    known.put(key, ())?;
    Ok(())
}

/// Texts, put in byte order.
pub(crate) fn in_byte_order(texts: List<Text>) -> Result<List<Text>, Memory>
    ensures { IfOk result (λ sorted. sorted ≡ by_key (λ text. text) texts) }
{
    let mut texts = texts.into_vec();
    texts.sort()?;
    Ok(List::from_vec(texts))
}

/// A list that isn't empty. No memory.
pub(crate) fn unless_empty<T: Drop>(list: List<T>) -> Option<List<T>>
    ensures { result ≡ unless_empty list }
{
    if list.is_empty() {
        drop(list);
        None
    } else {
        Some(list)
    }
}

/// The items of a list that may not be there. No memory.
pub(crate) fn items_of<'l, T>(list: Option<&'l List<T>>) -> &'l [T]
    ensures { result.now ≡ unwrap_or (option_copied list.entry) [] }
{
    match list {
        Some(list) => list.as_slice(),
        None => &[],
    }
}

/// Three texts, one behind another.
pub(crate) fn joined(alloc: Global, first: &str, second: &str, third: &str) -> Result<Text, Memory>
    ensures { IfOk result (λ text. text ≡ first.now ++ second.now ++ third.now) }
{
    let mut text = Text::from_str(alloc, first)?;
    text.push_str(second)?;
    text.push_str(third)?;
    Ok(text)
}

/// Pairs as names with their values, of which null is the empty text.
pub(crate) fn vars_of(alloc: Global, pairs: &Pairs) -> Result<List<Var>, Memory>
    ensures { IfOk result (λ vars. vars ≡ vars_of pairs.now) }
{
    let mut vars = List::new(alloc);
    for at in 0..pairs.len() {
        put_var(alloc, pairs.pair(at), &mut vars)?;
    }
    Ok(vars)
}

fn put_var(
    alloc: Global,
    pair: Option<(&Text, &Option<Text>)>,
    vars: &mut List<Var>,
) -> Result<(), Memory>
    ensures { OnOk result (vars.new ≡
        vars.old ++ option_map_or (λ p. var_of p.0.now p.1.now ∷ []) pair.entry []) }
{
    match pair {
        Some((name, value)) => vars.push(var_of(alloc, name, value)?),
        None => Ok(()),
    }
}

fn var_of(alloc: Global, name: &Text, value: &Option<Text>) -> Result<Var, Memory>
    ensures { IfOk result (λ var. var ≡ var_of name.now value.now) }
{
    Ok(Var {
        name: name.copy(alloc)?,
        value: Text::from_str(alloc, text_of(value))?,
    })
}

/// A text that may not be there; then it is empty. No memory.
pub(crate) fn text_of(value: &Option<Text>) -> &str
    ensures { result.now ≡ unwrap_or value.now [] }
{
    match value {
        Some(value) => value.as_str(),
        None => "",
    }
}
