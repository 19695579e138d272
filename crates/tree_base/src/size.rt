ghost use Rattle.std.specs.Prelude.{◌≤◌, ◌-◌, ◌↔◌, IsTrue, SomeIff, length, map, sum_by};
ghost use Rattle.tree_base.specs.Trees.{node_count, text_size, depth, greatest};

use crate::text::Text;
use crate::tree::Tree;

impl Tree {
    /// How many nodes the tree has, where they are at most `limit`; else None, which comes at the first node
    /// past the limit. No memory.
    pub fn nodes_within(&self, limit: u64) -> Option<u64>
        ensures { SomeIff result (node_count self.now ≤ limit) (node_count self.now) }
    {
        let left = self.nodes_left(limit)?;
        Some(limit - left)
    }

    /// What is left of a budget after one for each node.
    #[cycle(nodes)]
    fn nodes_left(&self, budget: u64) -> Option<u64>
        ensures { SomeIff result (node_count self.now ≤ budget) (budget - node_count self.now) }
    {
        match self {
            Tree::Null => budget.checked_sub(1),
            Tree::Scalar(_) => budget.checked_sub(1),
            Tree::Map(entries) => Tree::all_nodes_left(entries.values(), budget.checked_sub(1)?),
            Tree::Seq(items) => Tree::all_nodes_left(items.as_slice(), budget.checked_sub(1)?),
            Tree::Reset => Some(budget),
            Tree::Override(inner) => inner.get().nodes_left(budget),
        }
    }

    #[cycle(nodes)]
    fn all_nodes_left(trees: &[Tree], budget: u64) -> Option<u64>
        ensures { SomeIff result (sum_by node_count trees.now ≤ budget)
            (budget - sum_by node_count trees.now) }
    {
        let mut left = budget;
        for tree in trees {
            left = tree.nodes_left(left)?;
        }
        Some(left)
    }

    /// How many bytes the keys and the scalars have together, where they are at most `limit`; else None, which
    /// comes at the first key or scalar past the limit. No memory.
    pub fn text_within(&self, limit: u64) -> Option<u64>
        ensures { SomeIff result (text_size self.now ≤ limit) (text_size self.now) }
    {
        let left = self.text_left(limit)?;
        Some(limit - left)
    }

    /// What is left of a budget after the bytes of the keys and the scalars.
    #[cycle(text)]
    fn text_left(&self, budget: u64) -> Option<u64>
        ensures { SomeIff result (text_size self.now ≤ budget) (budget - text_size self.now) }
    {
        match self {
            Tree::Null => Some(budget),
            Tree::Scalar(text) => budget.checked_sub(text.len() as u64),
            Tree::Map(entries) => Tree::all_text_left(
                entries.values(),
                keys_left(entries.keys(), budget)?,
            ),
            Tree::Seq(items) => Tree::all_text_left(items.as_slice(), budget),
            Tree::Reset => Some(budget),
            Tree::Override(inner) => inner.get().text_left(budget),
        }
    }

    #[cycle(text)]
    fn all_text_left(trees: &[Tree], budget: u64) -> Option<u64>
        ensures { SomeIff result (sum_by text_size trees.now ≤ budget)
            (budget - sum_by text_size trees.now) }
    {
        let mut left = budget;
        for tree in trees {
            left = tree.text_left(left)?;
        }
        Some(left)
    }

    /// Whether the tree has at most so many nodes, and its keys and scalars have at most so many bytes together. One walk
    /// counts both, and stops at the first node, key or scalar past a limit. No memory.
    pub fn is_within(&self, nodes: u64, bytes: u64) -> bool
        ensures { IsTrue result ↔ ((node_count self.now ≤ nodes) × (text_size self.now ≤ bytes)) }
    {
        self.room_left(nodes, bytes).is_some()
    }

    /// What is left of two budgets after one for each node, and after the bytes of the keys and the scalars.
    #[cycle(room)]
    fn room_left(&self, nodes: u64, bytes: u64) -> Option<(u64, u64)>
        ensures { SomeIff result ((node_count self.now ≤ nodes) × (text_size self.now ≤ bytes))
            (nodes - node_count self.now, bytes - text_size self.now) }
    {
        match self {
            Tree::Null => Some((nodes.checked_sub(1)?, bytes)),
            Tree::Scalar(text) => Some((
                nodes.checked_sub(1)?,
                bytes.checked_sub(text.len() as u64)?,
            )),
            Tree::Map(entries) => Tree::all_room_left(
                entries.values(),
                nodes.checked_sub(1)?,
                keys_left(entries.keys(), bytes)?,
            ),
            Tree::Seq(items) => Tree::all_room_left(items.as_slice(), nodes.checked_sub(1)?, bytes),
            Tree::Reset => Some((nodes, bytes)),
            Tree::Override(inner) => inner.get().room_left(nodes, bytes),
        }
    }

    #[cycle(room)]
    fn all_room_left(trees: &[Tree], nodes: u64, bytes: u64) -> Option<(u64, u64)>
        ensures { SomeIff result ((sum_by node_count trees.now ≤ nodes)
            × (sum_by text_size trees.now ≤ bytes))
            (nodes - sum_by node_count trees.now, bytes - sum_by text_size trees.now) }
    {
        let mut left = nodes;
        let mut unread = bytes;
        for tree in trees {
            (left, unread) = tree.room_left(left, unread)?;
        }
        Some((left, unread))
    }

    /// Whether at most `levels` nodes stand above one another. It stops at the first node past them. No memory.
    #[cycle(depth)]
    pub fn is_within_depth(&self, levels: u32) -> bool
        ensures { IsTrue result ↔ (depth self.now ≤ levels) }
    {
        match self {
            Tree::Null => 1 <= levels,
            Tree::Scalar(_) => 1 <= levels,
            Tree::Map(entries) => 1 <= levels
                && Tree::are_within_depth(entries.values(), levels - 1),
            Tree::Seq(items) => 1 <= levels && Tree::are_within_depth(items.as_slice(), levels - 1),
            Tree::Reset => true,
            Tree::Override(inner) => inner.get().is_within_depth(levels),
        }
    }

    #[cycle(depth)]
    fn are_within_depth(trees: &[Tree], levels: u32) -> bool
        ensures { IsTrue result ↔ (greatest (map depth trees.now) ≤ levels) }
    {
        for tree in trees {
            if !tree.is_within_depth(levels) {
                return false;
            }
        }
        true
    }
}

/// What is left of a budget after the bytes of keys; None where they have more. No memory.
pub fn keys_left(keys: &[Text], budget: u64) -> Option<u64>
    ensures { SomeIff result (sum_by length keys.now ≤ budget) (budget - sum_by length keys.now) }
{
    let mut left = budget;
    for key in keys {
        left = left.checked_sub(key.len() as u64)?;
    }
    Some(left)
}
