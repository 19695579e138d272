ghost use Rattle.std.specs.Prelude.{◌≡◌, ◌+◌, [], ◌∷◌, ◌++◌, IfOk, OnOk, length, map, nat_eq};
ghost use Rattle.std.specs.List.{list_any, zip};
ghost use Rattle.project_print.specs.Pages.{page_text, shown};
ghost use Rattle.project_print.specs.Scalars.{doubled, scalar};
ghost use Rattle.project_print.specs.Written.{entries_text, gap, hanging, indent, items_text, key_text};

use crate::node::Node;
use crate::scalar::{doubled, put_scalar};
use std::alloc::Global;
use tree_base::{Memory, Text};

/// The node as a page of YAML: two spaces a level, each line with its end. Memory where there is no memory for
/// it.
pub fn node_page(alloc: Global, node: &Node) -> Result<Text, Memory>
    ensures { IfOk result (λ text. text ≡ page_text node.now) }
{
    let mut out = Text::new(alloc);
    put_node(node, alloc, 0, &mut out)?;
    Ok(out)
}

/// Puts the node's lines last. The first one goes on where `out` ends, the others begin with two spaces for each
/// level of `depth`. Memory where there is no memory for them.
#[cycle(layout)]
pub fn put_node(node: &Node, alloc: Global, depth: u32, out: &mut Text) -> Result<(), Memory>
    ensures { OnOk result (out.new ≡ out.old ++ hanging depth (shown node.now)) }
{
    match node {
        Node::Null => out.push_str("null\n"),
        Node::Word(word) => put_line(word.as_str(), out),
        Node::Text(text) => put_text(alloc, text, out),
        Node::Map(entries) => {
            if entries.is_empty() {
                out.push_str("{}\n")
            } else {
                put_entries(entries.values(), entries.keys(), alloc, depth, out)
            }
        }
        Node::Seq(items) => {
            if items.is_empty() {
                out.push_str("[]\n")
            } else {
                put_items(items.as_slice(), alloc, depth, out)
            }
        }
    }
}

#[cycle(layout)]
fn put_entries(
    values: &[Node],
    keys: &[Text],
    alloc: Global,
    depth: u32,
    out: &mut Text,
) -> Result<(), Memory>
    requires { length keys.now ≡ length values.now }
    ensures { OnOk result (out.new ≡
        out.old ++ entries_text depth (zip keys.now (map shown values.now))) }
{
    let below = deeper(depth)?;
    for (at, value) in values.iter().enumerate() {
        put_gap(at, depth, out)?;
        put_key(keys[at].as_str(), value.is_block(), below, out)?;
        put_node(value, alloc, below, out)?;
    }
    Ok(())
}

#[cycle(layout)]
fn put_items(items: &[Node], alloc: Global, depth: u32, out: &mut Text) -> Result<(), Memory>
    ensures { OnOk result (out.new ≡ out.old ++ items_text depth (map shown items.now)) }
{
    let below = deeper(depth)?;
    for (at, item) in items.iter().enumerate() {
        put_gap(at, depth, out)?;
        out.push_str("- ")?;
        put_node(item, alloc, below, out)?;
    }
    Ok(())
}

/// One level more. Memory where numbers end, which is deeper than memory lets a value nest.
pub fn deeper(depth: u32) -> Result<u32, Memory>
    ensures { IfOk result (λ below. below ≡ depth + 1) }
{
    depth.checked_add(1).ok_or(Memory)
}

fn put_line(text: &str, out: &mut Text) -> Result<(), Memory>
    ensures { OnOk result (out.new ≡ out.old ++ text.now ++ 10 ∷ []) }
{
    out.push_str(text)?;
    out.push_str("\n")
}

/// Puts the line of a text last, in which each `$` stands twice. Memory where there is no memory for it.
pub fn put_text(alloc: Global, text: &Text, out: &mut Text) -> Result<(), Memory>
    ensures { OnOk result (out.new ≡ out.old ++ scalar (doubled text.now) ++ 10 ∷ []) }
{
    put_doubled(alloc, text.as_str(), out)?;
    out.push_str("\n")
}

/// Puts a text with each `$` twice last. Only one that has some is copied first.
fn put_doubled(alloc: Global, text: &str, out: &mut Text) -> Result<(), Memory>
    ensures { OnOk result (out.new ≡ out.old ++ scalar (doubled text.now)) }
{
    if has_dollar(text.as_bytes()) {
        let twice = doubled(alloc, text)?;
        put_scalar(twice.as_str(), out)
    } else {
        put_scalar(text, out)
    }
}

fn has_dollar(bytes: &[u8]) -> bool
    ensures { result ≡ list_any (λ byte. nat_eq byte 36) bytes.now }
{
    bytes.iter().any(|byte| *byte == b'$')
}

/// Puts the indentation of a depth last.
fn put_indent(depth: u32, out: &mut Text) -> Result<(), Memory>
    ensures { OnOk result (out.new ≡ out.old ++ indent depth) }
{
    for _ in 0..depth {
        out.push_str("  ")?;
    }
    Ok(())
}

/// Puts what stands before a part of a block: the indentation, but before the first nothing. Memory where there is no
/// memory for it.
pub fn put_gap(at: usize, depth: u32, out: &mut Text) -> Result<(), Memory>
    ensures { OnOk result (out.new ≡ out.old ++ gap depth at) }
{
    if at == 0 {
        Ok(())
    } else {
        put_indent(depth, out)
    }
}

/// Puts a key last, and what stands between it and its value, of which the lines are at depth `below`. Memory where
/// there is no memory for it.
pub fn put_key(key: &str, is_block: bool, below: u32, out: &mut Text) -> Result<(), Memory>
    ensures { OnOk result (out.new ≡ out.old ++ key_text below key.now is_block) }
{
    put_scalar(key, out)?;
    if is_block {
        out.push_str(":\n")?;
        put_indent(below, out)
    } else {
        out.push_str(": ")
    }
}
