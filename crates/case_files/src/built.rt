use crate::fields::Fields;
use crate::line::Line;
use crate::reading::Reading;
use tree_base::{List, Map, Text, Tree};

/// Puts the bytes of a text last, which may be built of parts.
#[cycle(built)]
pub(crate) fn add_text(reading: &mut Reading, tree: &Tree, what: &str, to: &mut List<u8>) {
    match tree {
        Tree::Scalar(text) => reading.push_bytes(to, text.as_str().as_bytes()),
        Tree::Seq(parts) => add_parts(reading, parts.as_slice(), what, to),
        _ => reading.wants(what, "a text"),
    }
}

#[cycle(built)]
fn add_parts(reading: &mut Reading, parts: &[Tree], what: &str, to: &mut List<u8>) {
    for part in parts {
        match part {
            Tree::Scalar(text) => reading.push_bytes(to, text.as_str().as_bytes()),
            Tree::Map(entries) => add_part(reading, entries.get(), what, to),
            _ => reading.wants(what, "a text"),
        }
    }
}

#[cycle(built)]
fn add_part(reading: &mut Reading, entries: &Map, what: &str, to: &mut List<u8>) {
    let fields = Fields::new(entries);
    if let Some(Tree::Scalar(digits)) = fields.find("bytes") {
        return add_hexadecimal(reading, digits.as_str(), what, to);
    }
    let times = reading.number_at(&fields, "times");
    let keys = entries.keys();
    for (at, text) in entries.values().iter().enumerate() {
        let key = key_at(keys, at);
        if key != "times" {
            let mut piece = List::new(reading.alloc);
            add_text(reading, text, what, &mut piece);
            add_times(reading, times, key, piece.as_slice(), to);
        }
    }
}

fn key_at(keys: &[Text], at: usize) -> &str {
    match keys.get(at) {
        Some(key) => key.as_str(),
        None => "",
    }
}

/// Puts a piece as often as wanted, and ends with the first fault.
fn add_times(reading: &mut Reading, times: u64, how: &str, piece: &[u8], to: &mut List<u8>) {
    for time in 0..times {
        if !reading.is_sound() {
            return;
        }
        add_piece(reading, time, how, piece, to);
    }
}

/// Puts a piece as it is, with each `#` as the number of the time, from 0, or with as many spaces before it.
fn add_piece(reading: &mut Reading, time: u64, how: &str, piece: &[u8], to: &mut List<u8>) {
    match how {
        "of" => reading.push_bytes(to, piece),
        "counting" => add_counting(reading, time, piece, to),
        "deeper" => add_deeper(reading, time, piece, to),
        _ => reading.wants(how, "to be `of`, `counting` or `deeper`"),
    }
}

fn add_counting(reading: &mut Reading, time: u64, piece: &[u8], to: &mut List<u8>) {
    let mut number = Line::new(reading.alloc);
    number.put_number(time);
    let number = reading.said(number);
    for byte in piece {
        if *byte == b'#' {
            reading.push_bytes(to, number.as_str().as_bytes());
        } else {
            reading.push(to, *byte);
        }
    }
}

fn add_deeper(reading: &mut Reading, time: u64, piece: &[u8], to: &mut List<u8>) {
    for _ in 0..time {
        reading.push(to, b' ');
    }
    reading.push_bytes(to, piece);
}

fn add_hexadecimal(reading: &mut Reading, digits: &str, what: &str, to: &mut List<u8>) {
    let mut high = None;
    for digit in digits.chars() {
        if digit == ' ' {
            continue;
        }
        let Some(value) = digit.to_digit(16) else {
            return reading.wants(what, "hexadecimal digits");
        };
        high = match high {
            None => Some(value as u8),
            Some(high) => {
                reading.push(to, (high << 4) | value as u8);
                None
            }
        };
    }
    if high.is_some() {
        reading.wants(what, "two hexadecimal digits a byte");
    }
}

/// The number below 2 ^ 64 that a tree is; None where it is none. No memory.
pub(crate) fn number_in(tree: &Tree) -> Option<u64> {
    match tree {
        Tree::Scalar(digits) => digits.as_str().parse::<u64>().ok(),
        _ => None,
    }
}
