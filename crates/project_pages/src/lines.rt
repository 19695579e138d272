ghost use Rattle.std.specs.Prelude.{◌≡◌, ◌++◌, OnOk, map};
ghost use Rattle.std.specs.List.{All};
ghost use Rattle.project_print.specs.Pages.{entry, shown as lines};
ghost use Rattle.project_print.specs.Written.{hanging};
ghost use Rattle.project_print.specs.declared.node.Node.{Node};
ghost use Rattle.project_pages.specs.Sections.{section_text};

use crate::to_node::Keyed;
use project_print::{Node, deeper, put_gap, put_key, put_node};
use std::alloc::Global;
use tree_base::{Memory, Text};

/// What a page shows under a key of its own, put into the page without a node of the whole.
pub(crate) trait Entry: Keyed {
    /// Puts the lines of the entry last: the key, and what stands under it. The first line goes on where `out` ends,
    /// the others begin with two spaces for each level of `depth`. Memory where there is no memory for them.
    fn put_entry(&self, alloc: Global, depth: u32, out: &mut Text) -> Result<(), Memory>
        requires { Self.is_fit self.now }
        ensures { OnOk result (out.new ≡
            out.old ++ hanging depth (entry (Self.name self.now, lines (Self.shown self.now)))) };
}

/// Puts a key and the lines of a node under it last.
pub(crate) fn put_node_entry(
    alloc: Global,
    depth: u32,
    key: &str,
    node: &Node,
    out: &mut Text,
) -> Result<(), Memory>
    ensures { OnOk result (out.new ≡ out.old ++ hanging depth (entry (key.now, lines node.now))) }
{
    let below = deeper(depth)?;
    put_key(key, node.is_block(), below, out)?;
    put_node(node, alloc, below, out)
}

/// Puts the lines of a mapping of some items last.
pub(crate) fn put_mapping_lines<T: Entry>(
    alloc: Global,
    depth: u32,
    items: &[T],
    out: &mut Text,
) -> Result<(), Memory>
    requires { All T.is_fit items.now }
    ensures { OnOk result (out.new ≡ out.old ++ hanging depth (lines
        (Node.Map (map (λ item. (T.name item, T.shown item)) items.now)))) }
{
    if items.is_empty() {
        return out.push_str("{}\n");
    }
    for (at, item) in items.iter().enumerate() {
        put_gap(at, depth, out)?;
        item.put_entry(alloc, depth, out)?;
    }
    Ok(())
}

/// Puts a key and the lines of a mapping of some items under it last.
pub(crate) fn put_mapping_entry<T: Entry>(
    alloc: Global,
    depth: u32,
    key: &str,
    items: &[T],
    out: &mut Text,
) -> Result<(), Memory>
    requires { All T.is_fit items.now }
    ensures { OnOk result (out.new ≡ out.old ++ hanging depth (entry (
      key.now,
      lines
          (Node.Map (map (λ item. (T.name item, T.shown item)) items.now)),
    ))) }
{
    let below = deeper(depth)?;
    put_key(key, !items.is_empty(), below, out)?;
    put_mapping_lines(alloc, below, items, out)
}

/// Puts a section of a page last, where it declares something.
pub(crate) fn put_section_lines<T: Entry>(
    alloc: Global,
    key: &str,
    items: &[T],
    out: &mut Text,
) -> Result<(), Memory>
    requires { All T.is_fit items.now }
    ensures { OnOk result (out.new ≡ out.old ++ section_text key.now
        (λ items. Node.Map (map (λ item. (T.name item, T.shown item)) items)) items.now) }
{
    if items.is_empty() {
        return Ok(());
    }
    put_mapping_entry(alloc, 0, key, items, out)
}
