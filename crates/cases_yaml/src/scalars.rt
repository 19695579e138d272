use crate::refusals::refuse;
use crate::rows::{line_of, put_rest, row_under};
use case_files::{Answers, Fields, Reading};
use std::alloc::Global;
use tree_base::{Memory, Text};
use yaml_lines::{
    Chomp, Context, Line, Lines, Row, begins_plain, block, block_of_rows, plain_len, plain_scalar,
    quoted, quoted_scalar, rows_of, scan,
};

/// `quoted: LINE`, which begins with a quote: the `text` that the scalar spells, and the `rest` of the line.
pub fn quoted_text(fields: &Fields, answers: &mut Answers) {
    if let Some(row) = row_under(&mut answers.reading, fields, "quoted") {
        let read = quoted_scalar(answers.reading.alloc, row.chars.as_slice());
        put_scalar(answers, &row, read);
    }
}

/// `plain: LINE` with its `context`, `flow` or else `block`: the `text` of the scalar that it begins with, or null;
/// the `rest` of the line; how many characters it has by the measure (`length`), and whether one `begins`.
pub fn plain_text(fields: &Fields, answers: &mut Answers) {
    let context = context_of(&mut answers.reading, fields);
    if let Some(row) = row_under(&mut answers.reading, fields, "plain") {
        put_plain(answers, &row, context);
    }
}

fn context_of(reading: &mut Reading, fields: &Fields) -> Context {
    let context = reading.text_or(fields, "context", "block");
    match context.as_str() {
        "block" => Context::Block,
        "flow" => Context::Flow,
        _ => {
            reading.wants("context", "block or flow");
            Context::Block
        }
    }
}

fn put_plain(answers: &mut Answers, row: &Row, context: Context) {
    let chars = row.chars.as_slice();
    answers.put_flag("begins", begins_plain(chars));
    answers.put_number("length", plain_len(chars, context) as u64);
    let read = plain_scalar(answers.reading.alloc, chars, context);
    put_scalar(answers, row, read);
}

/// Puts the text of a scalar and the rest of its row; null for the text where there is no scalar.
fn put_scalar(answers: &mut Answers, row: &Row, read: Result<Option<(Text, usize)>, Memory>) {
    match read {
        Err(Memory) => answers.reading.memory(),
        Ok(None) => answers.put_null("text"),
        Ok(Some((text, len))) => {
            put_rest(answers, row, len);
            answers.put_text("text", text.as_str());
        }
    }
}

/// `quoted_at: LINE` with the `number` of the line, its `file` and the place `at` of the quote, from 0: the `text` that
/// the scalar spells and the place behind it (`end`), or where it is `refused`.
pub fn quoted_at_place(fields: &Fields, answers: &mut Answers) {
    let number = answers.reading.small_or(fields, "number", 1);
    let line = line_of(&mut answers.reading, fields, "quoted_at", number);
    put_quoted(fields, answers, &line);
}

fn put_quoted(fields: &Fields, answers: &mut Answers, line: &Line) {
    let file = answers.reading.small_or(fields, "file", 0);
    let at = answers.reading.number_or(fields, "at", 0) as usize;
    match quoted(answers.reading.alloc, file, line, at) {
        Ok((text, end)) => {
            answers.put_text("text", text.as_str());
            answers.put_number("end", end as u64);
        }
        Err(refusal) => refuse(answers, refusal),
    }
}

/// How the content of a block scalar is read, and where it stands.
#[derive(Clone, Copy)]
struct Style {
    folded: bool,
    chomp: Chomp,
    /// The place of its first line, from 0.
    first: usize,
    /// How many spaces its parent has.
    parent: u32,
}

/// `block: TEXT` with its `header`, the `first` of its lines, from 0, and the spaces of its `parent`: the `text` that it
/// spells, the place of the line `behind` it, and whether all rows spell the same
/// (`same_of_rows`).
pub fn block_text(fields: &Fields, answers: &mut Answers) {
    let style = style_of(&mut answers.reading, fields);
    let text = answers.reading.text_at(fields, "block");
    match scan(answers.reading.alloc, text.as_str().as_bytes(), 0) {
        Ok(lines) => put_block(answers, &lines, style),
        Err(refusal) => refuse(answers, refusal),
    }
}

fn style_of(reading: &mut Reading, fields: &Fields) -> Style {
    let (folded, chomp) = header_of(reading, fields);
    Style {
        folded,
        chomp,
        first: reading.number_or(fields, "first", 0) as usize,
        parent: reading.small_or(fields, "parent", 0),
    }
}

fn header_of(reading: &mut Reading, fields: &Fields) -> (bool, Chomp) {
    let header = reading.text_at(fields, "header");
    match header_in(header.as_str()) {
        Some(header) => header,
        None => {
            reading.wants("header", "`|` or `>`, with `-` or `+`");
            (false, Chomp::Clip)
        }
    }
}

/// Whether a header is of a folded scalar, and what it keeps of the line ends.
fn header_in(header: &str) -> Option<(bool, Chomp)> {
    match header {
        "|" => Some((false, Chomp::Clip)),
        "|-" => Some((false, Chomp::Strip)),
        "|+" => Some((false, Chomp::Keep)),
        ">" => Some((true, Chomp::Clip)),
        ">-" => Some((true, Chomp::Strip)),
        ">+" => Some((true, Chomp::Keep)),
        _ => None,
    }
}

fn put_block(answers: &mut Answers, lines: &Lines, style: Style) {
    let read = block(
        answers.reading.alloc,
        lines,
        style.first,
        style.parent,
        style.folded,
        style.chomp,
    );
    match read {
        Ok((text, behind)) => {
            answers.put_number("behind", behind as u64);
            let told = is_of_rows(answers.reading.alloc, lines, style, &text);
            answers.put_told("same_of_rows", told);
            answers.put_text("text", text.as_str());
        }
        Err(Memory) => answers.reading.memory(),
    }
}

/// Whether the rows of a block scalar spell this text.
fn is_of_rows(alloc: Global, lines: &Lines, style: Style, text: &Text) -> Result<bool, Memory> {
    let rows = rows_of(alloc, lines)?;
    let (of_rows, _) = block_of_rows(
        alloc,
        rows.as_slice(),
        style.parent as usize,
        style.folded,
        style.chomp,
    )?;
    Ok(of_rows == *text)
}
