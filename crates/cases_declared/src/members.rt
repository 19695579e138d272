use case_files::{Line, Lines};
use cases_ground::{Entries, Items};
use engine_types::{Pairs, label};
use std::alloc::Global;
use tree_base::{Map, Memory, Text, Tree};

/// A text as a tree.
pub(crate) fn text_tree(alloc: Global, text: &str) -> Result<Tree, Memory> {
    Ok(Tree::Scalar(Text::from_str(alloc, text)?))
}

/// A number as a tree, in decimal.
pub(crate) fn number_tree(alloc: Global, number: u64) -> Result<Tree, Memory> {
    let mut line = Line::new(alloc);
    line.number(number);
    Ok(Tree::Scalar(line.end()?))
}

/// `true` or `false` as a tree.
pub(crate) fn flag_tree(alloc: Global, flag: bool) -> Result<Tree, Memory> {
    text_tree(alloc, if flag { "true" } else { "false" })
}

/// Lines as a sequence of texts, where there was memory for all of them.
pub(crate) fn lines_tree(alloc: Global, lines: Lines) -> Result<Tree, Memory> {
    let texts = lines.end()?;
    texts_tree(alloc, texts.as_slice())
}

/// Texts as a sequence.
pub(crate) fn texts_tree(alloc: Global, texts: &[Text]) -> Result<Tree, Memory> {
    let mut items = Items::new(alloc);
    for text in texts {
        items.text(text.as_str());
    }
    items.whole()
}

/// Of a mapping the members that the wanted one names, in its order, with null for one that isn't there; where one of both is no
/// mapping, the tree as it is.
pub(crate) fn named_members(alloc: Global, came: &Tree, wanted: &Tree) -> Result<Tree, Memory> {
    match (came, wanted) {
        (Tree::Map(came), Tree::Map(wanted)) => members_of(alloc, came.get(), wanted.get()),
        _ => came.copy(alloc),
    }
}

fn members_of(alloc: Global, came: &Map, wanted: &Map) -> Result<Tree, Memory> {
    let mut members = Entries::new(alloc);
    for key in wanted.keys() {
        members.tree(key.as_str(), member_of(alloc, came, key.as_str()));
    }
    members.whole()
}

/// What stands under a key, or null.
pub(crate) fn member_of(alloc: Global, came: &Map, key: &str) -> Result<Tree, Memory> {
    match came.find(key) {
        Some(tree) => tree.copy(alloc),
        None => Ok(Tree::Null),
    }
}

/// Of labels those that a wanted mapping names, with null for one that isn't there.
pub(crate) fn labels_tree(alloc: Global, labels: &Pairs, wanted: &Tree) -> Result<Tree, Memory> {
    let mut members = Entries::new(alloc);
    if let Tree::Map(wanted) = wanted {
        for name in wanted.get().keys() {
            members.text_or_null(name.as_str(), label(labels, name.as_str()));
        }
    }
    members.whole()
}
