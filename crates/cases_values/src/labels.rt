use case_files::{Fields, Reading};
use engine_types::{Pairs, labels};
use tree_base::{List, Text};

/// The pairs of the mapping under a key, in its order.
pub fn pairs_at(reading: &mut Reading, fields: &Fields, key: &str) -> Pairs {
    let mut pairs = List::new(reading.alloc);
    if let Some(entries) = reading.fields(fields, key) {
        let entries = entries.entries();
        for (name, tree) in entries.keys().iter().zip(entries.values()) {
            let value = reading.text_of(tree, name.as_str());
            reading.push_pair(&mut pairs, name.as_str(), value.as_str());
        }
    }
    pairs
}

/// The labels of a container: those under `labels`; else, where it has a `service`, the five by which it is known to be
/// a service's, by its `project`, `service`, `number`, `hash` and `oneoff`, and the `version` of its hash where that is
/// given; else none.
pub(crate) fn container_labels(reading: &mut Reading, fields: &Fields, project: &Text) -> Pairs {
    if fields.has("labels") || !fields.has("service") {
        return pairs_at(reading, fields, "labels");
    }
    let mut pairs = List::new(reading.alloc);
    push_label(reading, &mut pairs, labels::HASH, fields, "hash", "");
    push_label(reading, &mut pairs, labels::NUMBER, fields, "number", "1");
    push_label(
        reading,
        &mut pairs,
        labels::ONEOFF,
        fields,
        "oneoff",
        labels::NOT_ONEOFF,
    );
    push_label(
        reading,
        &mut pairs,
        labels::PROJECT,
        fields,
        "project",
        project.as_str(),
    );
    push_label(reading, &mut pairs, labels::SERVICE, fields, "service", "");
    if fields.has("version") {
        push_label(reading, &mut pairs, labels::VERSION, fields, "version", "");
    }
    pairs
}

/// Puts a label last, with the text under a key, or another one where the key isn't there.
fn push_label(
    reading: &mut Reading,
    pairs: &mut Pairs,
    label: &str,
    fields: &Fields,
    key: &str,
    default: &str,
) {
    let value = reading.text_or(fields, key, default);
    reading.push_pair(pairs, label, value.as_str());
}

/// The labels of a network or a volume: those under `labels`; else, where it has a `key`, that under the label `own` and
/// the `project`; else none.
pub(crate) fn resource_labels(
    reading: &mut Reading,
    fields: &Fields,
    own: &str,
    project: &Text,
) -> Pairs {
    if fields.has("labels") || !fields.has("key") {
        return pairs_at(reading, fields, "labels");
    }
    let mut pairs = List::new(reading.alloc);
    push_label(reading, &mut pairs, own, fields, "key", "");
    push_label(
        reading,
        &mut pairs,
        labels::PROJECT,
        fields,
        "project",
        project.as_str(),
    );
    pairs
}
