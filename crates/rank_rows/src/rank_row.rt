ghost use Rattle.std.specs.Prelude.{◌≡◌, ◌+◌, ◌*◌, ◌<◌, ◌≤◌, ◌⊎◌, length, IfOk, replicate, set, slice_get, slice_set};
ghost use Rattle.tree_base.specs.Limits.{count_bound};
ghost use Rattle.rank_rows.specs.Ranks.{IsFound, IsTreeBut, child, leaf_of, least, sooner};

use std::alloc::Global;
use std::marker::Model;
use tree_base::Memory;

/// A place with its key.
#[derive(Debug, Clone, Copy, PartialEq, Eq)]
pub struct Rank {
    pub key: u32,
    pub at: u32,
}

/// A row of places, of which some have a key; contracts see the keys. Over the keys stands a tree of nodes: node 1 is the
/// root, and under node j are the nodes 2j and 2j + 1, of which those past the last node are the places. Each node is the
/// sooner one of those two.
#[derive(Drop)]
pub struct RankRow {
    keys: Vec<Option<u32>>,
    nodes: Vec<Option<Rank>>,
}

impl Model for RankRow {
    ghost use Rattle.std.specs.Prelude.{ℕ, List, Option};

    ghost Value = { List (Option ℕ) };

    ghost use Rattle.rank_rows.specs.Ranks.{IsRankRow};

    ghost view = { λ row. row.keys.items };

    ghost invariant = { λ row. IsRankRow row.nodes.items row.keys.items };
}

impl RankRow {
    /// So many places without a key. Their whole room is taken here.
    pub fn new(alloc: Global, count: u32) -> Result<RankRow, Memory>
        ensures { IfOk result (λ row. row ≡ replicate count None) }
    {
        let mut keys = Vec::new(alloc);
        let mut nodes = Vec::new(alloc);
        for _ in 0..count {
            keys.push(None)?;
            nodes.push(None)?;
        }
        Ok(RankRow { keys, nodes })
    }

    /// Gives a place its key, or takes it away. No memory; the work is the logarithm of the count.
    pub fn put(&mut self, at: u32, key: Option<u32>)
        requires { at < length self.old }
        ensures { self.new ≡ set self.old at key }
    {
        let at = at as usize;
        self.keys[at] = key;
        let above = (self.keys.len() + at) / 2;
        mend(&mut self.nodes, &self.keys, above);
    }

    /// The place with the least key, and the first of those. No memory.
    pub fn first(&self) -> Option<u32>
        ensures least { result ≡ least self.now }
        ensures found { IsFound self.now result }
    {
        if self.keys.len() < 1 {
            return None;
        }
        match child(&self.nodes, &self.keys, 1) {
            Some(rank) => Some(rank.at),
            None => None,
        }
    }
}

/// A node, or the place that stands where the nodes end.
fn child(nodes: &[Option<Rank>], keys: &[Option<u32>], node: usize) -> Option<Rank>
    requires same { length nodes.now ≡ length keys.now }
    requires small { length keys.now < count_bound }
    requires within { node < 2 * length keys.now }
    ensures { result ≡ child nodes.now keys.now node }
{
    if node < keys.len() {
        nodes[node]
    } else {
        leaf(keys, node - keys.len())
    }
}

/// A place with its key, where it has one.
fn leaf(keys: &[Option<u32>], at: usize) -> Option<Rank>
    requires { at < count_bound }
    ensures { result ≡ leaf_of keys.now at }
{
    match keys.get(at) {
        Some(Some(key)) => Some(Rank {
            key: *key,
            at: at as u32,
        }),
        _ => None,
    }
}

/// The sooner of two: with the lesser key, then the lesser place.
fn sooner(left: Option<Rank>, right: Option<Rank>) -> Option<Rank>
    ensures { result ≡ sooner left right }
{
    match (left, right) {
        (Some(x), Some(y)) => {
            if y.key < x.key || (y.key == x.key && y.at < x.at) {
                right
            } else {
                left
            }
        }
        (None, right) => right,
        (left, None) => left,
    }
}

/// Makes this node and each one over it the sooner of the two under it.
fn mend(nodes: &mut [Option<Rank>], keys: &[Option<u32>], from: usize)
    requires same { length nodes.old ≡ length keys.now }
    requires small { length keys.now < count_bound }
    requires below { from < length keys.now }
    requires broken { IsTreeBut nodes.old keys.now from }
    ensures mended { IsTreeBut nodes.new keys.now 0 }
{
    let mut at = from;
    while at > 0 {
        let left = child(nodes, keys, 2 * at);
        let right = child(nodes, keys, 2 * at + 1);
        nodes[at] = sooner(left, right);
        at /= 2;
    }
}
