ghost use Rattle.std.specs.Prelude.{◌≡◌, ◌++◌, IfOk, OnOk, filter, map};
ghost use Rattle.project_print.specs.Pages.{entry, shown};
ghost use Rattle.project_print.specs.Written.{hanging};
ghost use Rattle.project_pages.specs.AttributePages.{attribute_entry, value_node};
ghost use Rattle.typed_project.specs.DistinctNames.{HasDistinctParts, HaveDistinctNames};
ghost use Rattle.project_pages.specs.Puts.{hashed_value, is_hashed, is_hashed_name, with_found};

use crate::entries::put_node;
use crate::kept::kept_node;
use crate::lines::{Entry, put_node_entry};
use crate::numbers::{decimal_text, duration_text, number_text, signed_text};
use crate::rows::{check_node, logging_node};
use crate::texts::{put_pairs_entry, put_text_entry, put_texts_entry};
use crate::to_node::{Keyed, ToNode, mapping, nodes};
use crate::values::{bool_node, pairs_node, texts_node};
use attribute_types::{Attribute, Value};
use project_print::Node;
use std::alloc::Global;
use tree_base::{Memory, Text, TextMap};

impl ToNode for Value {
    ghost shown = { value_node };

    ghost is_fit = { HasDistinctParts };

    fn node(&self, alloc: Global) -> Result<Node, Memory> {
        match self {
            Value::Text(text) => text.node(alloc),
            Value::Bool(given) => bool_node(alloc, *given),
            Value::Num(number) => Ok(Node::Word(number_text(alloc, *number)?)),
            Value::Int(number) => Ok(Node::Word(signed_text(alloc, *number)?)),
            Value::List(texts) => texts_node(alloc, texts.as_slice()),
            Value::Pairs(pairs) => pairs_node(alloc, pairs),
            Value::Argv(words) => texts_node(alloc, words.as_slice()),
            Value::Duration(micros) => Ok(Node::Text(duration_text(alloc, *micros)?)),
            Value::Size(bytes) => Ok(Node::Word(number_text(alloc, *bytes)?)),
            Value::Decimal(billionths) => Ok(Node::Text(decimal_text(alloc, *billionths)?)),
            Value::Port(port) => Ok(Node::Word(number_text(alloc, u64::from(*port))?)),
            Value::Kept(tree) => kept_node(tree, alloc),
            Value::Ulimits(limits) => Ok(Node::Map(mapping(alloc, limits.as_slice())?)),
            Value::Logging(logging) => logging_node(alloc, logging),
            Value::Ports(ports) => Ok(Node::Seq(nodes(alloc, ports.as_slice())?)),
            Value::Mounts(mounts) => Ok(Node::Seq(nodes(alloc, mounts.as_slice())?)),
            Value::Files(files) => Ok(Node::Seq(nodes(alloc, files.as_slice())?)),
            Value::Networks(networks) => Ok(Node::Map(mapping(alloc, networks.as_slice())?)),
            Value::HealthCheck(check) => check_node(alloc, check),
            Value::Dependencies(needs) => Ok(Node::Map(mapping(alloc, needs.as_slice())?)),
        }
    }
}

impl ToNode for Attribute {
    ghost shown = { λ attribute. value_node attribute.value };

    ghost is_fit = { λ attribute. HasDistinctParts attribute.value };

    fn node(&self, alloc: Global) -> Result<Node, Memory> {
        self.value.node(alloc)
    }
}

impl Keyed for Attribute {
    ghost name = { λ attribute. attribute.name };

    fn key(&self) -> &Text {
        &self.name
    }
}

impl Entry for Attribute {
    fn put_entry(&self, alloc: Global, depth: u32, out: &mut Text) -> Result<(), Memory> {
        put_value_entry(alloc, depth, self.name.as_str(), &self.value, out)
    }
}

/// Puts a key and the lines of a value under it last. Only of what isn't made of texts alone a node is made.
fn put_value_entry(
    alloc: Global,
    depth: u32,
    key: &str,
    value: &Value,
    out: &mut Text,
) -> Result<(), Memory>
    requires { HasDistinctParts value.now }
    ensures { OnOk result (out.new ≡
        out.old ++ hanging depth (entry (key.now, shown (value_node value.now)))) }
{
    match value {
        Value::Text(text) => put_text_entry(alloc, depth, key, text, out),
        Value::List(texts) => put_texts_entry(alloc, depth, key, texts.as_slice(), out),
        Value::Pairs(pairs) => put_pairs_entry(alloc, depth, key, pairs, out),
        Value::Argv(words) => put_texts_entry(alloc, depth, key, words.as_slice(), out),
        _ => {
            let node = value.node(alloc)?;
            put_node_entry(alloc, depth, key, &node, out)
        }
    }
}

/// The entries of the attributes that are hashed.
pub(crate) fn hashed_entries(
    alloc: Global,
    attributes: &[Attribute],
) -> Result<TextMap<Node>, Memory>
    requires { HaveDistinctNames attributes.now }
    ensures { IfOk result (λ entries.
        entries ≡ map attribute_entry (filter is_hashed attributes.now)) }
{
    let mut entries = TextMap::new(alloc);
    for attribute in attributes {
        put_hashed(alloc, &mut entries, attribute)?;
    }
    Ok(entries)
}

/// Puts an attribute under its name, where it is hashed.
#[tactic(auto, unfolding(crate::specs::Puts::with_found))]
fn put_hashed(
    alloc: Global,
    entries: &mut TextMap<Node>,
    attribute: &Attribute,
) -> Result<(), Memory>
    requires { HasDistinctParts attribute.now.value }
    ensures { OnOk result (entries.new ≡
        with_found entries.old attribute.now.name (hashed_value attribute.now)) }
{
    if is_hashed(attribute.name.as_str()) {
        let node = attribute.node(alloc)?;
        put_node(alloc, entries, attribute.name.as_str(), node)
    } else {
        Ok(())
    }
}

/// Whether the attribute with a name may change a container.
fn is_hashed(name: &str) -> bool
    ensures { result ≡ is_hashed_name name.now }
{
    !matches!(
        name,
        "build" | "depends_on" | "deploy" | "profiles" | "pull_policy" | "scale"
    )
}
