#![tactic(auto, unfolding(crate::specs::Puts::with_found))]

ghost use Rattle.std.specs.Prelude.{◌≡◌, OnOk, Some};
ghost use Rattle.std.specs.Option.{option_map};
ghost use Rattle.tree_base.specs.Entries.{with_entry};
ghost use Rattle.project_print.specs.declared.node.Node.{Node};
ghost use Rattle.project_pages.specs.AttributePages.{bool_node, duration_node, number_node, texts_node};
ghost use Rattle.project_pages.specs.Puts.{true_node, with_found};

use crate::numbers::{duration_text, number_text};
use crate::values::{bool_node, texts_node};
use project_print::Node;
use std::alloc::Global;
use tree_base::{List, Memory, Text, TextMap};

/// Puts a node under a key: one that is there keeps its place, and a new one goes last.
pub(crate) fn put_node(
    alloc: Global,
    entries: &mut TextMap<Node>,
    key: &str,
    node: Node,
) -> Result<(), Memory>
    ensures { OnOk result (entries.new ≡ with_entry entries.old key.now node) }
{
    let key = Text::from_str(alloc, key)?;
    drop(entries.put(key, node)?);
    Ok(())
}

/// Puts a mapping under a key.
pub(crate) fn put_mapping(
    alloc: Global,
    entries: &mut TextMap<Node>,
    key: &str,
    mapping: TextMap<Node>,
) -> Result<(), Memory>
    ensures { OnOk result (entries.new ≡
        with_found entries.old key.now (Some (Node.Map mapping))) }
{
    put_node(alloc, entries, key, Node::Map(mapping))
}

/// Puts a text under a key.
pub(crate) fn put_text(
    alloc: Global,
    entries: &mut TextMap<Node>,
    key: &str,
    text: &str,
) -> Result<(), Memory>
    ensures { OnOk result (entries.new ≡
        with_found entries.old key.now (Some (Node.Text text.now))) }
{
    let text = Text::from_str(alloc, text)?;
    put_node(alloc, entries, key, Node::Text(text))
}

/// Puts a bool under a key.
pub(crate) fn put_bool(
    alloc: Global,
    entries: &mut TextMap<Node>,
    key: &str,
    given: bool,
) -> Result<(), Memory>
    ensures { OnOk result (entries.new ≡
        with_found entries.old key.now (Some (bool_node given))) }
{
    let node = bool_node(alloc, given)?;
    put_node(alloc, entries, key, node)
}

/// Puts a number under a key.
pub(crate) fn put_number(
    alloc: Global,
    entries: &mut TextMap<Node>,
    key: &str,
    number: u64,
) -> Result<(), Memory>
    ensures { OnOk result (entries.new ≡
        with_found entries.old key.now (Some (number_node number))) }
{
    let text = number_text(alloc, number)?;
    put_node(alloc, entries, key, Node::Word(text))
}

/// Puts `true` under a key, where a flag is set.
pub(crate) fn put_flag(
    alloc: Global,
    entries: &mut TextMap<Node>,
    key: &str,
    flag: bool,
) -> Result<(), Memory>
    ensures { OnOk result (entries.new ≡ with_found entries.old key.now (true_node flag)) }
{
    if flag {
        put_bool(alloc, entries, key, true)
    } else {
        Ok(())
    }
}

/// Puts a text under a key, where there is one.
pub(crate) fn put_text_if(
    alloc: Global,
    entries: &mut TextMap<Node>,
    key: &str,
    text: &Option<Text>,
) -> Result<(), Memory>
    ensures { OnOk result (entries.new ≡
        with_found entries.old key.now (option_map Node.Text text.now)) }
{
    match text {
        Some(text) => put_text(alloc, entries, key, text.as_str()),
        None => Ok(()),
    }
}

/// Puts texts under a key, where there are some.
pub(crate) fn put_texts_if(
    alloc: Global,
    entries: &mut TextMap<Node>,
    key: &str,
    texts: &Option<List<Text>>,
) -> Result<(), Memory>
    ensures { OnOk result (entries.new ≡
        with_found entries.old key.now (option_map texts_node texts.now)) }
{
    match texts {
        Some(texts) => {
            let node = texts_node(alloc, texts.as_slice())?;
            put_node(alloc, entries, key, node)
        }
        None => Ok(()),
    }
}

/// Puts a bool under a key, where there is one.
pub(crate) fn put_bool_if(
    alloc: Global,
    entries: &mut TextMap<Node>,
    key: &str,
    given: Option<bool>,
) -> Result<(), Memory>
    ensures { OnOk result (entries.new ≡
        with_found entries.old key.now (option_map bool_node given)) }
{
    match given {
        Some(given) => put_bool(alloc, entries, key, given),
        None => Ok(()),
    }
}

/// Puts a number under a key, where there is one.
pub(crate) fn put_number_if(
    alloc: Global,
    entries: &mut TextMap<Node>,
    key: &str,
    number: Option<u64>,
) -> Result<(), Memory>
    ensures { OnOk result (entries.new ≡
        with_found entries.old key.now (option_map number_node number)) }
{
    match number {
        Some(number) => put_number(alloc, entries, key, number),
        None => Ok(()),
    }
}

/// Puts a duration in microseconds under a key, where there is one.
pub(crate) fn put_duration_if(
    alloc: Global,
    entries: &mut TextMap<Node>,
    key: &str,
    micros: Option<u64>,
) -> Result<(), Memory>
    ensures { OnOk result (entries.new ≡
        with_found entries.old key.now (option_map duration_node micros)) }
{
    match micros {
        Some(micros) => {
            let text = duration_text(alloc, micros)?;
            put_node(alloc, entries, key, Node::Text(text))
        }
        None => Ok(()),
    }
}
