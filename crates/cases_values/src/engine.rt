use crate::labels::container_labels;
use crate::seen::{images_of, networks_of};
use case_files::{Fields, Reading};
use cases_messages::{id_at, read_bytes, report_of, spec_of};
use engine_types::{ContainerRow, Containers, Engine};
use tree_base::{List, Text};

/// An Engine, by `containers`, `networks`, `volumes`, `images` (ids under names) and `next` (1).
///
/// A container has what one has that was seen, but for the ids of its `networks`, its `exit_code` (0) and
/// `health` (absent), what it was made with: `binds` and `healthcheck`, and the bytes that it has written: `logs`, as
/// numbers.
pub fn engine_of(reading: &mut Reading, fields: &Fields, project: &Text) -> Engine {
    Engine {
        containers: Containers::from_list(containers_of(reading, fields, project)),
        networks: networks_of(reading, fields, project),
        volumes: reading.texts(fields, "volumes"),
        images: images_of(reading, fields),
        next: reading.number_or(fields, "next", 1),
    }
}

fn containers_of(reading: &mut Reading, fields: &Fields, project: &Text) -> List<ContainerRow> {
    let mut rows = List::new(reading.alloc);
    for tree in reading.items(fields, "containers") {
        if let Some(fields) = reading.fields_of(tree, "a container") {
            if let Some(row) = row_of(reading, &fields, project) {
                reading.push(&mut rows, row);
            }
        }
    }
    rows
}

fn row_of(reading: &mut Reading, fields: &Fields, project: &Text) -> Option<ContainerRow> {
    let labels = container_labels(reading, fields, project);
    let spec = spec_of(reading, fields, labels, None, None)?;
    Some(ContainerRow {
        id: id_at(reading, fields),
        name: reading.text_or(fields, "name", ""),
        spec,
        labels: container_labels(reading, fields, project),
        image_id: reading.text_or(fields, "image", ""),
        networks: reading.texts(fields, "networks"),
        report: report_of(reading, fields),
        logs: logs_of(reading, fields),
    })
}

/// The bytes that a container has written.
fn logs_of(reading: &mut Reading, fields: &Fields) -> List<u8> {
    let numbers = reading.text_or(fields, "logs", "");
    read_bytes(reading, numbers.as_str())
}
