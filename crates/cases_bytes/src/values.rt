use case_files::{Fields, Reading};
use engine_types::Pairs;
use tree_base::{List, Text, Tree};

/// The text under a key; None where the key isn't there.
pub(crate) fn text_if(reading: &mut Reading, fields: &Fields, key: &str) -> Option<Text> {
    if fields.has(key) {
        Some(reading.text_at(fields, key))
    } else {
        None
    }
}

/// The texts of the sequence under a key; None where the key isn't there.
pub(crate) fn texts_if(reading: &mut Reading, fields: &Fields, key: &str) -> Option<List<Text>> {
    if fields.has(key) {
        Some(reading.texts(fields, key))
    } else {
        None
    }
}

/// Whether a key is `true`; None where it isn't there.
pub(crate) fn flag_if(reading: &mut Reading, fields: &Fields, key: &str) -> Option<bool> {
    if fields.has(key) {
        Some(reading.flag(fields, key))
    } else {
        None
    }
}

/// The integer under a key; None where the key isn't there.
pub(crate) fn integer_if(reading: &mut Reading, fields: &Fields, key: &str) -> Option<i64> {
    let tree = fields.find(key)?;
    Some(integer_of(reading, tree, key))
}

/// The integer under a key, which has to be there.
pub(crate) fn integer_at(reading: &mut Reading, fields: &Fields, key: &str) -> i64 {
    match reading.tree_at(fields, key) {
        Some(tree) => integer_of(reading, tree, key),
        None => 0,
    }
}

/// The integer of 64 bits that a part is.
fn integer_of(reading: &mut Reading, tree: &Tree, what: &str) -> i64 {
    match reading.word(tree).unwrap_or("").parse::<i64>() {
        Ok(integer) => integer,
        Err(_) => {
            reading.wants(what, "an integer");
            0
        }
    }
}

/// The pairs of the mapping under a key, in its order; none where the key isn't there.
pub(crate) fn pairs_at(reading: &mut Reading, fields: &Fields, key: &str) -> Pairs {
    let mut pairs = List::new(reading.alloc);
    if let Some(entries) = reading.fields(fields, key) {
        for name in entries.entries().keys() {
            push_pair(reading, &entries, name, &mut pairs);
        }
    }
    pairs
}

fn push_pair(reading: &mut Reading, entries: &Fields, name: &Text, to: &mut Pairs) {
    let value = reading.text_at(entries, name.as_str());
    reading.push_pair(to, name.as_str(), value.as_str());
}

/// The pairs of the mapping under a key, in its order; None where the key isn't there.
pub(crate) fn pairs_if(reading: &mut Reading, fields: &Fields, key: &str) -> Option<Pairs> {
    if fields.has(key) {
        Some(pairs_at(reading, fields, key))
    } else {
        None
    }
}
