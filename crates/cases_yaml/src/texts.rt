use crate::refusals::refuse;
use crate::rows::row_under;
use case_files::{Answers, Fields, Line};
use std::alloc::Global;
use tree_base::{List, Text, Tree};
use yaml_groups::{LogicalLine, cut_len, grouped};
use yaml_lines::{Lines, YamlRefusal, rows_of, scan};
use yaml_tree::read;

/// `yaml: TEXT`: the `tree` that a text spells, how many `nodes` it has and how many `bytes` its keys and scalars have
/// together, or where the text is `refused`.
pub fn yaml(fields: &Fields, answers: &mut Answers) {
    let bytes = answers.reading.bytes_at(fields, "yaml");
    match tree_of(answers.reading.alloc, bytes.as_slice()) {
        Ok(tree) => put_tree(answers, tree),
        Err(refusal) => refuse(answers, refusal),
    }
}

fn tree_of(alloc: Global, bytes: &[u8]) -> Result<Tree, YamlRefusal> {
    let lines = scan(alloc, bytes, 0)?;
    read(alloc, &lines)
}

fn put_tree(answers: &mut Answers, tree: Tree) {
    put_sizes(answers, &tree);
    answers.put("tree", tree);
}

/// Puts the sizes of a tree, where they are within the limits of a text.
fn put_sizes(answers: &mut Answers, tree: &Tree) {
    if let Some(nodes) = tree.nodes_within(200_000) {
        answers.put_number("nodes", nodes);
    }
    if let Some(bytes) = tree.text_within(16_777_216) {
        answers.put_number("bytes", bytes);
    }
}

/// `lines: TEXT`, of bytes too, with the number of its `file`: the `count` of its lines; of the last one its number
/// (`last_number`), its text (`last`) and its `indent`; the number of their file (`in_file`); or where it is `refused`.
pub fn lines_of_file(fields: &Fields, answers: &mut Answers) {
    let file = answers.reading.small_or(fields, "file", 0);
    let bytes = answers.reading.bytes_at(fields, "lines");
    match scan(answers.reading.alloc, bytes.as_slice(), file) {
        Ok(lines) => put_lines(answers, &lines),
        Err(refusal) => refuse(answers, refusal),
    }
}

fn put_lines(answers: &mut Answers, lines: &Lines) {
    answers.put_number("count", lines.lines.len() as u64);
    answers.put_number("in_file", lines.file as u64);
    if let Some(line) = lines.lines.as_slice().last() {
        answers.put_number("last_number", line.number as u64);
        answers.put_text("last", line.text.as_str());
        answers.put_number("indent", line.indent as u64);
    }
}

/// `grouped: TEXT`: the `lines` that are read of it, a line each: its number, its characters with `/` for a line feed,
/// and behind `~` each line that belongs to it.
pub fn grouped_lines(fields: &Fields, answers: &mut Answers) {
    let text = answers.reading.text_at(fields, "grouped");
    match lines_of(answers.reading.alloc, &text) {
        Ok(lines) => {
            answers.put_line(
                "lines",
                lines_shown(answers.reading.alloc, lines.as_slice()),
            );
        }
        Err(refusal) => refuse(answers, refusal),
    }
}

fn lines_of(alloc: Global, text: &Text) -> Result<List<LogicalLine>, YamlRefusal> {
    let lines = scan(alloc, text.as_str().as_bytes(), 0)?;
    let rows = rows_of(alloc, &lines)?;
    Ok(grouped(alloc, rows)?)
}

fn lines_shown(alloc: Global, lines: &[LogicalLine]) -> Line {
    let mut shown = Line::new(alloc);
    for line in lines {
        push_line(&mut shown, line);
    }
    shown
}

fn push_line(shown: &mut Line, line: &LogicalLine) {
    shown.put_number(line.row.number as u64);
    shown.put(" ");
    push_chars(shown, line.row.chars.as_slice());
    for row in line.content.as_slice() {
        shown.put("~");
        push_chars(shown, row.chars.as_slice());
    }
    shown.put("\n");
}

fn push_chars(shown: &mut Line, chars: &[char]) {
    for c in chars {
        shown.put_char(if *c == '\n' { '/' } else { *c });
    }
}

/// `cut: TEXT`, what stands in a flow collection behind its opening bracket or a comma: how many characters stand before
/// its next cut (`length`).
pub fn cut_length(fields: &Fields, answers: &mut Answers) {
    if let Some(row) = row_under(&mut answers.reading, fields, "cut") {
        answers.put_number("length", cut_len(row.chars.as_slice()) as u64);
    }
}
