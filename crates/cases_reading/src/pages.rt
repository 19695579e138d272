use case_files::{Answers, Fields, Reading};
use cases_ground::{scalar_in, under_keys};
use project_print::{Dollars, Node, json_text, node_page, node_page_json};
use std::alloc::Global;
use tree_base::{List, Map, Memory, Text, Tree};
use yaml_lines::{YamlRefusal, scan};
use yaml_tree::read;

/// `page: NODE`: its page as `yaml`, the same as `json`, the `hash_text`, which is JSON with dollars once, and the tree
/// that is `read_back` from the page. A scalar is a text, and `{word: TEXT}` a word that is printed as it is.
pub(crate) fn page(fields: &Fields, answers: &mut Answers) {
    if let Some(tree) = answers.reading.tree_at(fields, "page") {
        let node = node_of(&mut answers.reading, tree);
        put_pages(&node, answers);
        drop(node);
    }
}

fn put_pages(node: &Node, answers: &mut Answers) {
    put_yaml(node, answers);
    let json = node_page_json(answers.reading.alloc, node);
    answers.put_said("json", json);
    let hash_text = json_text(answers.reading.alloc, node, Dollars::Once);
    answers.put_said("hash_text", hash_text);
}

fn put_yaml(node: &Node, answers: &mut Answers) {
    let page = node_page(answers.reading.alloc, node);
    if let Some(page) = answers.reading.made(page) {
        answers.put_text("yaml", page.as_str());
        put_read_back(page.as_str(), answers);
    }
}

fn put_read_back(page: &str, answers: &mut Answers) {
    match tree_in(answers.reading.alloc, page.as_bytes()) {
        Ok(tree) => answers.put("read_back", tree),
        Err(_) => answers.refuse("the page isn't read back"),
    }
}

/// The tree that a text spells.
fn tree_in(alloc: Global, bytes: &[u8]) -> Result<Tree, YamlRefusal> {
    let lines = scan(alloc, bytes, 0)?;
    read(alloc, &lines)
}

/// `page_scalar: TEXT`: how it is spelled in a page as `yaml`, and as `json`, both without their line's end.
pub(crate) fn page_scalar(fields: &Fields, answers: &mut Answers) {
    let node = Node::Text(answers.reading.text_at(fields, "page_scalar"));
    put_line("yaml", node_page(answers.reading.alloc, &node), answers);
    put_line(
        "json",
        node_page_json(answers.reading.alloc, &node),
        answers,
    );
    drop(node);
}

fn put_line(name: &str, line: Result<Text, Memory>, answers: &mut Answers) {
    if let Some(line) = answers.reading.made(line) {
        match line.as_str().strip_suffix('\n') {
            Some(line) => answers.put_text(name, line),
            None => answers.reading.refuse("the line has no end"),
        }
    }
}

#[cycle(nodes)]
fn node_of(reading: &mut Reading, tree: &Tree) -> Node {
    match tree {
        Tree::Null => Node::Null,
        Tree::Scalar(text) => Node::Text(reading.text(text.as_str())),
        Tree::Map(entries) => node_of_map(reading, entries.get()),
        Tree::Seq(items) => Node::Seq(nodes_of(reading, items.as_slice())),
        _ => {
            reading.refuse("a page has no marks");
            Node::Null
        }
    }
}

#[cycle(nodes)]
fn node_of_map(reading: &mut Reading, entries: &Map) -> Node {
    match word_in(entries) {
        Some(word) => Node::Word(reading.text(word.as_str())),
        None => {
            let nodes = nodes_of(reading, entries.values());
            Node::Map(under_keys(reading, entries, nodes))
        }
    }
}

#[cycle(nodes)]
fn nodes_of(reading: &mut Reading, trees: &[Tree]) -> List<Node> {
    let mut nodes = List::new(reading.alloc);
    for tree in trees {
        let node = node_of(reading, tree);
        reading.push(&mut nodes, node);
    }
    nodes
}

/// The word of `{word: TEXT}`.
fn word_in(entries: &Map) -> Option<&Text> {
    if entries.len() == 1 {
        scalar_in(entries.find("word")?)
    } else {
        None
    }
}
