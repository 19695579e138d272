ghost use Rattle.std.specs.Prelude.{◌≡◌, IfOk, map};
ghost use Rattle.std.specs.Option.{option_map_or};
ghost use Rattle.project_print.specs.declared.node.Node.{Node};
ghost use Rattle.project_pages.specs.AttributePages.{bool_node, pairs_node, texts_node};

use crate::to_node::{ToNode, nodes};
use attribute_types::Pairs;
use project_print::Node;
use std::alloc::Global;
use tree_base::{Memory, Text};

impl ToNode for Text {
    ghost shown = { Node.Text };

    ghost is_fit = { λ text. Unit {0} };

    fn node(&self, alloc: Global) -> Result<Node, Memory> {
        Ok(Node::Text(self.copy(alloc)?))
    }
}

impl ToNode for Option<Text> {
    ghost shown = { λ value. option_map_or Node.Text value Node.Null };

    ghost is_fit = { λ value. Unit {0} };

    fn node(&self, alloc: Global) -> Result<Node, Memory> {
        match self {
            Some(text) => Ok(Node::Text(text.copy(alloc)?)),
            None => Ok(Node::Null),
        }
    }
}

/// What is shown of a bool: its word.
pub(crate) fn bool_node(alloc: Global, given: bool) -> Result<Node, Memory>
    ensures { IfOk result (λ node. node ≡ bool_node given) }
{
    let word = if given { "true" } else { "false" };
    Ok(Node::Word(Text::from_str(alloc, word)?))
}

/// What is shown of texts: a sequence of them.
pub(crate) fn texts_node(alloc: Global, texts: &[Text]) -> Result<Node, Memory>
    ensures { IfOk result (λ node. node ≡ texts_node texts.now) }
{
    Ok(Node::Seq(nodes(alloc, texts)?))
}

/// What is shown of pairs: a mapping of texts and nulls.
pub(crate) fn pairs_node(alloc: Global, pairs: &Pairs) -> Result<Node, Memory>
    ensures { IfOk result (λ node. node ≡ pairs_node pairs.now) }
{
    let values = nodes(alloc, pairs.values())?;
    Ok(Node::Map(pairs.with_values(alloc, values)?))
}
