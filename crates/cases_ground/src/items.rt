use std::alloc::Global;
use tree_base::{List, Memory, Text, Tree};

/// A text as a tree.
pub(crate) fn scalar_tree(alloc: Global, text: &str) -> Result<Tree, Memory> {
    Ok(Tree::Scalar(Text::from_str(alloc, text)?))
}

/// A number as a case has it, in decimal.
pub(crate) fn number_tree(alloc: Global, number: u64) -> Result<Tree, Memory> {
    match format!(in alloc; "{number}") {
        Ok(digits) => Ok(Tree::Scalar(Text::from_string(digits))),
        Err(_) => Err(Memory),
    }
}

/// A sequence that is made item by item. Where memory is wanting it remembers that and goes on: so what is half made
/// has one way out, at the end.
#[derive(Drop)]
pub struct Items {
    alloc: Global,
    trees: List<Tree>,
    failed: bool,
}

impl Items {
    /// The sequence without items. No memory.
    pub fn new(alloc: Global) -> Items {
        Items {
            alloc,
            trees: List::new(alloc),
            failed: false,
        }
    }

    /// Puts a tree last, where there was memory for it.
    pub fn tree(&mut self, made: Result<Tree, Memory>) {
        match made {
            Ok(tree) => self.push(tree),
            Err(Memory) => self.failed = true,
        }
    }

    fn push(&mut self, tree: Tree) {
        if self.trees.push(tree).is_err() {
            self.failed = true;
        }
    }

    /// Puts null last.
    pub fn null(&mut self) {
        self.push(Tree::Null);
    }

    /// Puts a text last.
    pub fn text(&mut self, text: &str) {
        self.tree(scalar_tree(self.alloc, text));
    }

    /// Puts a number last.
    pub fn number(&mut self, number: u64) {
        self.tree(number_tree(self.alloc, number));
    }

    /// Puts `true` or `false` last.
    pub fn flag(&mut self, flag: bool) {
        self.text(if flag { "true" } else { "false" });
    }

    /// Puts a text last, or null where there is none.
    pub fn text_or_null(&mut self, text: Option<&Text>) {
        match text {
            Some(text) => self.text(text.as_str()),
            None => self.null(),
        }
    }

    /// Puts a number last, or null where there is none.
    pub fn number_or_null(&mut self, number: Option<u64>) {
        match number {
            Some(number) => self.number(number),
            None => self.null(),
        }
    }

    /// The whole sequence.
    pub fn whole(self) -> Result<Tree, Memory> {
        let Items {
            alloc,
            trees,
            failed,
        } = self;
        if failed {
            Err(Memory)
        } else {
            Tree::sequence(alloc, trees)
        }
    }
}

/// Numbers as a sequence.
pub(crate) fn numbers_tree(alloc: Global, numbers: &[u64]) -> Result<Tree, Memory> {
    let mut items = Items::new(alloc);
    for number in numbers {
        items.number(*number);
    }
    items.whole()
}

/// Texts as a sequence.
pub(crate) fn texts_tree(alloc: Global, texts: &[Text]) -> Result<Tree, Memory> {
    let mut items = Items::new(alloc);
    for text in texts {
        items.text(text.as_str());
    }
    items.whole()
}
