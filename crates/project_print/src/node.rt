ghost use Rattle.std.specs.Prelude.{◌≡◌};
ghost use Rattle.project_print.specs.Pages.{shown};

use tree_base::{List, Text, TextMap};

/// What a page shows.
#[derive(Drop)]
pub enum Node {
    Null,
    /// A word that is printed as it is: a number, a size or a bool, already spelled.
    Word(Text),
    /// A text, in which each `$` is printed twice, and which is quoted where it isn't plain.
    Text(Text),
    /// Keys with what stands under them, in the order in which they are printed.
    Map(TextMap<Node>),
    /// Items, in order.
    Seq(List<Node>),
}

impl Node {
    /// Whether the node takes lines of its own: a mapping or a sequence that isn't empty. No memory.
    pub fn is_block(&self) -> bool
        ensures { result ≡ (shown self.now).is_block }
    {
        match self {
            Node::Null => false,
            Node::Word(_) => false,
            Node::Text(_) => false,
            Node::Map(entries) => !entries.is_empty(),
            Node::Seq(items) => !items.is_empty(),
        }
    }
}
