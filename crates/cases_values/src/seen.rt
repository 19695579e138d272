use crate::labels::{container_labels, resource_labels};
use case_files::{Fields, Reading};
use cases_messages::{id_at, state_at};
use engine_types::{ImageRow, Listed, NetRow, Seen, labels};
use tree_base::{List, Text, Tree};

/// What an observation saw, by `containers`, `networks`, `volumes` and `images` (ids under names).
///
/// A container has its `id`, `name`, `image` (an id), `state`, the names of its `networks`, and `labels`, or in their
/// place `service`, `number` (1), `hash`, `oneoff` (False) and `project` (the one that is given). A network has
/// `id`, `name`, and `labels` or `key`.
pub fn seen_of(reading: &mut Reading, fields: &Fields, project: &Text) -> Seen {
    Seen {
        containers: containers_of(reading, fields, project),
        networks: networks_of(reading, fields, project),
        volumes: reading.texts(fields, "volumes"),
        images: images_of(reading, fields),
    }
}

fn containers_of(reading: &mut Reading, fields: &Fields, project: &Text) -> List<Listed> {
    let mut rows = List::new(reading.alloc);
    for tree in reading.items(fields, "containers") {
        if let Some(fields) = reading.fields_of(tree, "a container") {
            let row = listed_of(reading, &fields, project);
            reading.push(&mut rows, row);
        }
    }
    rows
}

/// A container that was seen, by the fields that `seen_of` names.
pub fn listed_of(reading: &mut Reading, fields: &Fields, project: &Text) -> Listed {
    Listed {
        id: id_at(reading, fields),
        name: reading.text_or(fields, "name", ""),
        image_id: reading.text_or(fields, "image", ""),
        labels: container_labels(reading, fields, project),
        state: state_at(reading, fields),
        networks: reading.texts(fields, "networks"),
    }
}

/// The networks of a listing.
pub(crate) fn networks_of(reading: &mut Reading, fields: &Fields, project: &Text) -> List<NetRow> {
    let mut rows = List::new(reading.alloc);
    for tree in reading.items(fields, "networks") {
        if let Some(fields) = reading.fields_of(tree, "a network") {
            let row = network_of(reading, &fields, project);
            reading.push(&mut rows, row);
        }
    }
    rows
}

fn network_of(reading: &mut Reading, fields: &Fields, project: &Text) -> NetRow {
    NetRow {
        id: id_at(reading, fields),
        name: reading.text_at(fields, "name"),
        labels: resource_labels(reading, fields, labels::NETWORK, project),
    }
}

/// The images, whose ids stand under their names.
pub(crate) fn images_of(reading: &mut Reading, fields: &Fields) -> List<ImageRow> {
    let mut rows = List::new(reading.alloc);
    if let Some(entries) = reading.fields(fields, "images") {
        let entries = entries.entries();
        for (name, tree) in entries.keys().iter().zip(entries.values()) {
            let row = image_of(reading, name, tree);
            reading.push(&mut rows, row);
        }
    }
    rows
}

fn image_of(reading: &mut Reading, name: &Text, tree: &Tree) -> ImageRow {
    ImageRow {
        name: reading.text(name.as_str()),
        id: reading.text_of(tree, "images"),
    }
}
