ghost use Rattle.std.specs.Prelude.{◌≡◌, IfOk, map};
ghost use Rattle.tree_base.specs.declared.Tree.{Tree};
ghost use Rattle.project_pages.specs.AttributePages.{kept_node};

use project_print::Node;
use std::alloc::Global;
use tree_base::{List, Map, Memory, Tree};

/// What is shown of a mapping that is kept: all that is in it, its scalars as texts.
#[cycle(keeping)]
pub(crate) fn kept_node(tree: &Tree, alloc: Global) -> Result<Node, Memory>
    ensures { IfOk result (λ node. node ≡ kept_node tree.now) }
{
    match tree {
        Tree::Null => Ok(Node::Null),
        Tree::Scalar(text) => Ok(Node::Text(text.copy(alloc)?)),
        Tree::Map(entries) => kept_map(entries.get(), alloc),
        Tree::Seq(items) => Ok(Node::Seq(kept_nodes(items.as_slice(), alloc)?)),
        Tree::Reset => Ok(Node::Null),
        Tree::Override(inner) => kept_node(inner.get(), alloc),
    }
}

#[cycle(keeping)]
fn kept_map(entries: &Map, alloc: Global) -> Result<Node, Memory>
    ensures { IfOk result (λ node. node ≡ kept_node (Tree.Map entries.now)) }
{
    let values = kept_nodes(entries.values(), alloc)?;
    Ok(Node::Map(entries.with_values(alloc, values)?))
}

#[cycle(keeping)]
fn kept_nodes(trees: &[Tree], alloc: Global) -> Result<List<Node>, Memory>
    ensures { IfOk result (λ nodes. nodes ≡ map kept_node trees.now) }
{
    let mut nodes = List::new(alloc);
    for tree in trees {
        nodes.push(kept_node(tree, alloc)?)?;
    }
    Ok(nodes)
}
