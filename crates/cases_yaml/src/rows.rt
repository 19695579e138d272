use crate::refusals::{put_place, refuse};
use case_files::{Answers, Fields, Reading};
use yaml_lines::{
    Line, Lines, Row, blanks, is_blank, is_colon, is_rest_blank, is_space_or_end, is_white,
    place_in, row_of, rows_of, scan, spaces, tab_indent, text_at, text_of,
};

/// The line of the text under a key, with its number.
pub fn line_of(reading: &mut Reading, fields: &Fields, key: &str, number: u32) -> Line {
    Line {
        number,
        indent: 0,
        text: reading.text_at(fields, key),
    }
}

/// The characters of the text under a key, as the row of a first line; None, and the want of memory is kept, where there
/// is none for them.
pub fn row_under(reading: &mut Reading, fields: &Fields, key: &str) -> Option<Row> {
    let line = line_of(reading, fields, key, 1);
    let row = row_of(reading.alloc, &line);
    reading.made(row)
}

/// `blanks: LINE`: how many `spaces` and how much `white` space it begins with, whether it is `blank`, whether it may
/// follow a node on its line (`rest_blank`), and where its indentation has a `tab`.
pub fn blanks_of(fields: &Fields, answers: &mut Answers) {
    if let Some(row) = row_under(&mut answers.reading, fields, "blanks") {
        put_blanks(answers, row.chars.as_slice());
    }
}

fn put_blanks(answers: &mut Answers, chars: &[char]) {
    answers.put_number("spaces", spaces(chars) as u64);
    answers.put_number("white", blanks(chars) as u64);
    answers.put_flag("blank", is_blank(chars));
    answers.put_flag("rest_blank", is_rest_blank(chars, false));
    match tab_indent(chars) {
        Some(at) => answers.put_number("tab", at as u64),
        None => answers.put_null("tab"),
    }
}

/// `white_character: TEXT`: whether its first character is `white` space.
pub fn white_character(fields: &Fields, answers: &mut Answers) {
    let text = answers.reading.text_at(fields, "white_character");
    match text.as_str().chars().next() {
        Some(c) => answers.put_flag("white", is_white(c)),
        None => answers.put_null("white"),
    }
}

/// `key_end: TEXT`: whether it begins with a `colon` that ends a key, and with a space or the line's end
/// (`space_or_end`).
pub fn key_end(fields: &Fields, answers: &mut Answers) {
    if let Some(row) = row_under(&mut answers.reading, fields, "key_end") {
        let chars = row.chars.as_slice();
        answers.put_flag("colon", is_colon(chars));
        answers.put_flag("space_or_end", is_space_or_end(chars));
    }
}

/// `row: TEXT` with the number of its `file`, the `index` of a row and the place `at` in it, each from 0: how many
/// `rows` there are; of that one its `number`, its `indent` and the `rest` from the place on; the
/// `line` and the `column` of the place, and the number of the file (`in_file`).
pub fn row_with_place(fields: &Fields, answers: &mut Answers) {
    let file = answers.reading.small_or(fields, "file", 0);
    let text = answers.reading.text_at(fields, "row");
    match scan(answers.reading.alloc, text.as_str().as_bytes(), file) {
        Ok(lines) => put_row_of(fields, answers, &lines),
        Err(refusal) => refuse(answers, refusal),
    }
}

fn put_row_of(fields: &Fields, answers: &mut Answers, lines: &Lines) {
    let index = answers.reading.number_or(fields, "index", 0) as usize;
    let at = answers.reading.number_or(fields, "at", 0) as usize;
    let rows = rows_of(answers.reading.alloc, lines);
    if let Some(rows) = answers.reading.made(rows) {
        answers.put_number("rows", rows.len() as u64);
        if let Some(row) = rows.get(index) {
            put_row(answers, lines.file, row, at);
        }
    }
}

fn put_row(answers: &mut Answers, file: u32, row: &Row, at: usize) {
    answers.put_number("number", row.number as u64);
    answers.put_number("indent", row.indent as u64);
    put_rest(answers, row, at);
    put_place(answers, place_in(file, row, at));
}

/// Puts the characters of a row from a place on, as `rest`.
pub fn put_rest(answers: &mut Answers, row: &Row, at: usize) {
    let rest = text_of(answers.reading.alloc, text_at(row, at));
    answers.put_said("rest", rest);
}
