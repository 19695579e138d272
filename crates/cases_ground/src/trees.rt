use crate::entries::under_keys;
use crate::parts::is_word;
use crate::paths::{path_of, step_of};
use crate::values::within_u32;
use case_files::{Answers, Fields, Reading};
use tree_base::{Boxed, List, Map, Memory, Tree};

/// `tree: TREE`: what stands under `step` or at `path`, as `child` and `found`, where they lead to something, which
/// `leads` says; whether it is the `same` as an `other`; how many `nodes` and `text_bytes` it has, where they are at most
/// `most_nodes` and `most_text`; and whether it `is_within_depth` of `most_levels`. `{mark: reset}` is a `!reset`,
/// and `{mark: override, of: TREE}` an `!override`.
pub(crate) fn tree(fields: &Fields, answers: &mut Answers) {
    if let Some(copy) = copy_with_marks(&mut answers.reading, fields) {
        put_child(&copy, fields, answers);
        put_found(&copy, fields, answers);
        put_same(&copy, fields, answers);
        put_size(&copy, fields, answers);
        drop(copy);
    }
}

/// A copy of the tree, which is dropped by a call: a drop in place is proved variant by variant.
fn copy_with_marks(reading: &mut Reading, fields: &Fields) -> Option<Tree> {
    let tree = reading.tree_at(fields, "tree")?;
    let tree = tree_with_marks(reading, tree);
    let copy = tree.copy(reading.alloc);
    drop(tree);
    reading.made(copy)
}

fn put_child(tree: &Tree, fields: &Fields, answers: &mut Answers) {
    if let Some(step) = fields.find("step") {
        let step = step_of(&mut answers.reading, step);
        put_where("child", tree.child(&step), answers);
    }
}

fn put_found(tree: &Tree, fields: &Fields, answers: &mut Answers) {
    if fields.has("path") {
        let steps = answers.reading.items(fields, "path");
        let path = path_of(&mut answers.reading, steps);
        put_where("found", tree.at(&path), answers);
    }
}

fn put_where(name: &str, found: Option<&Tree>, answers: &mut Answers) {
    answers.put_flag("leads", found.is_some());
    if let Some(found) = found {
        let copy = found.copy(answers.reading.alloc);
        answers.put_made(name, copy);
    }
}

fn put_same(tree: &Tree, fields: &Fields, answers: &mut Answers) {
    if let Some(other) = fields.find("other") {
        let other = tree_with_marks(&mut answers.reading, other);
        let same = tree.same(&other);
        drop(other);
        answers.put_flag("same", same);
    }
}

fn put_size(tree: &Tree, fields: &Fields, answers: &mut Answers) {
    let most_nodes = answers.reading.number_or(fields, "most_nodes", u64::MAX);
    put_or_null("nodes", tree.nodes_within(most_nodes), answers);
    let most_text = answers.reading.number_or(fields, "most_text", u64::MAX);
    put_or_null("text_bytes", tree.text_within(most_text), answers);
    let most_levels = within_u32(answers.reading.number_or(fields, "most_levels", 64));
    answers.put_flag("is_within_depth", tree.is_within_depth(most_levels));
}

fn put_or_null(name: &str, number: Option<u64>, answers: &mut Answers) {
    match number {
        Some(number) => answers.put_number(name, number),
        None => answers.put_null(name),
    }
}

/// The tree in which each `{mark: reset}` is a `!reset`, and each `{mark: override, of: TREE}` an `!override` of that tree.
#[cycle(marks)]
pub fn tree_with_marks(reading: &mut Reading, tree: &Tree) -> Tree {
    match tree {
        Tree::Map(entries) => map_with_marks(reading, entries.get()),
        Tree::Seq(items) => {
            let items = trees_with_marks(reading, items.as_slice());
            let made = Tree::sequence(reading.alloc, items);
            reading.given(made, Tree::Null)
        }
        Tree::Override(inner) => {
            let inner = tree_with_marks(reading, inner.get());
            overriding(reading, inner)
        }
        _ => {
            let copy = tree.copy(reading.alloc);
            reading.given(copy, Tree::Null)
        }
    }
}

fn overriding(reading: &mut Reading, inner: Tree) -> Tree {
    match Boxed::new(reading.alloc, inner) {
        Ok(inner) => Tree::Override(inner),
        Err(Memory) => {
            reading.memory();
            Tree::Null
        }
    }
}

#[cycle(marks)]
fn map_with_marks(reading: &mut Reading, entries: &Map) -> Tree {
    if is_marked(entries, "reset") {
        Tree::Reset
    } else {
        let values = trees_with_marks(reading, entries.values());
        if is_marked(entries, "override") {
            overriding_last(reading, values)
        } else {
            let entries = under_keys(reading, entries, values);
            let made = Tree::mapping(reading.alloc, entries);
            reading.given(made, Tree::Null)
        }
    }
}

/// An `!override` of the last of the values, which stands under `of`.
fn overriding_last(reading: &mut Reading, values: List<Tree>) -> Tree {
    let mut values = values;
    match values.pop() {
        Some(inner) => overriding(reading, inner),
        None => Tree::Null,
    }
}

#[cycle(marks)]
fn trees_with_marks(reading: &mut Reading, trees: &[Tree]) -> List<Tree> {
    let mut copies = List::new(reading.alloc);
    for tree in trees {
        let copy = tree_with_marks(reading, tree);
        reading.push(&mut copies, copy);
    }
    copies
}

fn is_marked(entries: &Map, word: &str) -> bool {
    match entries.find("mark") {
        Some(mark) => is_word(mark, word),
        None => false,
    }
}
