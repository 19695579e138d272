ghost use Rattle.std.specs.Prelude.{◌≡◌, ℕ, List, IfOk, map};
ghost use Rattle.std.specs.List.{All, IsDistinct};
ghost use Rattle.std.specs.Str.{bytes_eq};
ghost use Rattle.project_print.specs.declared.node.Node.{Node};

use crate::entries::put_node;
use project_print::Node;
use std::alloc::Global;
use tree_base::{List, Memory, Text, TextMap};

/// What a page shows as a node.
pub(crate) trait ToNode {
    /// The node.
    ghost shown: { Self → Node };

    /// Whether no two things in it stand under one name.
    ghost is_fit: { Self → Type 0 };

    /// The node. Memory where there is no memory for it.
    fn node(&self, alloc: Global) -> Result<Node, Memory>
        requires { is_fit self.now }
        ensures { IfOk result (λ node. node ≡ shown self.now) };
}

/// What a page shows under a key of its own.
pub(crate) trait Keyed: ToNode {
    /// The key.
    ghost name: { Self → List ℕ };

    /// The key. No memory.
    fn key(&self) -> &Text
        ensures { result.now ≡ name self.now };
}

/// What a page shows of each of some items, in order.
pub(crate) fn nodes<T: ToNode>(alloc: Global, items: &[T]) -> Result<List<Node>, Memory>
    requires { All T.is_fit items.now }
    ensures { IfOk result (λ nodes. nodes ≡ map T.shown items.now) }
{
    let mut nodes = List::new(alloc);
    for item in items {
        nodes.push(item.node(alloc)?)?;
    }
    Ok(nodes)
}

/// What a page shows of each of some items, under their keys.
pub(crate) fn mapping<T: Keyed>(alloc: Global, items: &[T]) -> Result<TextMap<Node>, Memory>
    requires keys { IsDistinct bytes_eq (map T.name items.now) }
    requires fit { All T.is_fit items.now }
    ensures { IfOk result (λ entries.
        entries ≡ map (λ item. (T.name item, T.shown item)) items.now) }
{
    let mut entries = TextMap::new(alloc);
    for item in items {
        let node = item.node(alloc)?;
        put_node(alloc, &mut entries, item.key().as_str(), node)?;
    }
    Ok(entries)
}
