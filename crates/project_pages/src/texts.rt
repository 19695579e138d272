ghost use Rattle.std.specs.Prelude.{◌≡◌, ◌++◌, OnOk};
ghost use Rattle.project_print.specs.Pages.{entry, shown};
ghost use Rattle.project_print.specs.Written.{hanging};
ghost use Rattle.project_print.specs.declared.node.Node.{Node};
ghost use Rattle.project_pages.specs.AttributePages.{pairs_node, texts_node};
ghost use Rattle.project_pages.specs.Sections.{maybe_text};

use attribute_types::Pairs;
use project_print::{deeper, put_gap, put_key, put_text};
use std::alloc::Global;
use tree_base::{Memory, Text};

/// Puts a key and the line of a text under it last.
pub(crate) fn put_text_entry(
    alloc: Global,
    depth: u32,
    key: &str,
    text: &Text,
    out: &mut Text,
) -> Result<(), Memory>
    ensures { OnOk result (out.new ≡
        out.old ++ hanging depth (entry (key.now, shown (Node.Text text.now)))) }
{
    let below = deeper(depth)?;
    put_key(key, false, below, out)?;
    put_text(alloc, text, out)
}

/// Puts a key and the lines of texts under it last.
pub(crate) fn put_texts_entry(
    alloc: Global,
    depth: u32,
    key: &str,
    texts: &[Text],
    out: &mut Text,
) -> Result<(), Memory>
    ensures { OnOk result (out.new ≡
        out.old ++ hanging depth (entry (key.now, shown (texts_node texts.now)))) }
{
    let below = deeper(depth)?;
    put_key(key, !texts.is_empty(), below, out)?;
    put_texts(alloc, below, texts, out)
}

/// Puts the lines of texts last, as a sequence.
fn put_texts(alloc: Global, depth: u32, texts: &[Text], out: &mut Text) -> Result<(), Memory>
    ensures { OnOk result (out.new ≡ out.old ++ hanging depth (shown (texts_node texts.now))) }
{
    if texts.is_empty() {
        return out.push_str("[]\n");
    }
    for (at, text) in texts.iter().enumerate() {
        put_gap(at, depth, out)?;
        out.push_str("- ")?;
        put_text(alloc, text, out)?;
    }
    Ok(())
}

/// Puts a key and the lines of pairs under it last.
pub(crate) fn put_pairs_entry(
    alloc: Global,
    depth: u32,
    key: &str,
    pairs: &Pairs,
    out: &mut Text,
) -> Result<(), Memory>
    ensures { OnOk result (out.new ≡
        out.old ++ hanging depth (entry (key.now, shown (pairs_node pairs.now)))) }
{
    let below = deeper(depth)?;
    put_key(key, !pairs.is_empty(), below, out)?;
    put_pairs(alloc, below, pairs, out)
}

/// Puts the lines of pairs last, as a mapping.
fn put_pairs(alloc: Global, depth: u32, pairs: &Pairs, out: &mut Text) -> Result<(), Memory>
    ensures { OnOk result (out.new ≡ out.old ++ hanging depth (shown (pairs_node pairs.now))) }
{
    if pairs.is_empty() {
        return out.push_str("{}\n");
    }
    for at in 0..pairs.len() {
        if let Some((key, value)) = pairs.pair(at) {
            put_gap(at, depth, out)?;
            put_pair(alloc, depth, key.as_str(), value, out)?;
        }
    }
    Ok(())
}

/// Puts the line of a pair last.
fn put_pair(
    alloc: Global,
    depth: u32,
    key: &str,
    value: &Option<Text>,
    out: &mut Text,
) -> Result<(), Memory>
    ensures { OnOk result (out.new ≡
        out.old ++ hanging depth (entry (key.now, shown (maybe_text value.now)))) }
{
    match value {
        Some(text) => put_text_entry(alloc, depth, key, text, out),
        None => put_null_entry(depth, key, out),
    }
}

/// Puts a key and null under it last.
fn put_null_entry(depth: u32, key: &str, out: &mut Text) -> Result<(), Memory>
    ensures { OnOk result (out.new ≡
        out.old ++ hanging depth (entry (key.now, shown Node.Null))) }
{
    let below = deeper(depth)?;
    put_key(key, false, below, out)?;
    out.push_str("null\n")
}
