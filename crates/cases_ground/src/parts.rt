use tree_base::{Text, Tree};

/// The text of a scalar; None for another tree. No memory.
pub fn scalar_in(tree: &Tree) -> Option<&Text> {
    match tree {
        Tree::Scalar(text) => Some(text),
        _ => None,
    }
}

/// Whether a tree is the scalar of a word. No memory.
pub fn is_word(tree: &Tree, word: &str) -> bool {
    match scalar_in(tree) {
        Some(text) => text.as_str() == word,
        None => false,
    }
}
