use case_files::{Fields, Line, Reading};
use tree_base::Text;

/// How many hexadecimal digits an id has that an Engine in memory gives.
const DIGITS: usize = 64;

/// What stands for the zeros at the beginning of such an id.
const ZEROS: &str = "0..";

/// What a digest begins with.
const DIGEST: &str = "sha256:";

/// The id of a word: `0..1f` is that of 64 hexadecimal digits which ends so and is zero before; another word is an id
/// itself.
pub fn id_of(reading: &mut Reading, word: &str) -> Text {
    match word.strip_prefix(ZEROS) {
        Some(digits) => numbered_id(reading, digits),
        None => reading.text(word),
    }
}

/// The id under the key `id`, empty where it isn't there.
pub fn id_at(reading: &mut Reading, fields: &Fields) -> Text {
    let word = reading.text_or(fields, "id", "");
    id_of(reading, word.as_str())
}

fn numbered_id(reading: &mut Reading, digits: &str) -> Text {
    let mut id = Line::new(reading.alloc);
    for _ in digits.len()..DIGITS {
        id.put("0");
    }
    id.put(digits);
    reading.said(id)
}

/// Says an id: one of 64 characters that begins with zeros without these, a digest by its first twelve digits,
/// and each other one itself.
pub fn say_id(line: &mut Line, id: &str) {
    if let Some(digest) = id.strip_prefix(DIGEST) {
        line.word(DIGEST);
        line.put(digest.get(..12).unwrap_or(digest));
    } else if id.len() == DIGITS && id.starts_with("0") {
        line.word(ZEROS);
        line.put(significant(id));
    } else {
        line.word(id);
    }
}

/// The digits behind the zeros that a number begins with; `0` of zero. No memory.
fn significant(digits: &str) -> &str {
    let digits = digits.trim_start_matches('0');
    if digits.is_empty() { "0" } else { digits }
}
