use crate::line::Line;
use tree_base::{Map, Text, Tree};

/// Says a tree: `null`, `"scalar"`, `[a, b]`, `{"k": v}`, `!reset`, `!override v`.
#[cycle(say)]
pub(crate) fn say_tree(line: &mut Line, tree: &Tree) {
    match tree {
        Tree::Null => line.put("null"),
        Tree::Scalar(text) => line.put_quoted(text),
        Tree::Map(entries) => say_entries(line, entries.get()),
        Tree::Seq(items) => say_items(line, items.as_slice()),
        Tree::Reset => line.put("!reset"),
        Tree::Override(inner) => {
            line.put("!override ");
            say_tree(line, inner.get());
        }
    }
}

#[cycle(say)]
fn say_items(line: &mut Line, items: &[Tree]) {
    line.put("[");
    for (at, item) in items.iter().enumerate() {
        line.put(mark_of(at));
        say_tree(line, item);
    }
    line.put("]");
}

#[cycle(say)]
fn say_entries(line: &mut Line, entries: &Map) {
    line.put("{");
    let keys = entries.keys();
    for (at, value) in entries.values().iter().enumerate() {
        line.put(mark_of(at));
        say_key(line, keys.get(at));
        say_tree(line, value);
    }
    line.put("}");
}

/// The mark before an item: nothing before the first one.
fn mark_of(at: usize) -> &'static str {
    if at == 0 { "" } else { ", " }
}

fn say_key(line: &mut Line, key: Option<&Text>) {
    if let Some(key) = key {
        line.put_quoted(key);
        line.put(": ");
    }
}
