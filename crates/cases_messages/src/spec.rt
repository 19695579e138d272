use case_files::{Fields, Reading};
use engine_types::{ContainerSpec, Endpoint, Healthcheck, Pairs};
use std::alloc::Global;
use tree_base::{Boxed, List, Memory, Text};

/// What the Engine is sent of a container with these labels, image and networks: the further members that cases use
/// stand under their names, `binds`, `network_mode` and `healthcheck` (the items of its test). None, and the want of
/// memory is kept, where there is none for its box.
pub fn spec_of(
    reading: &mut Reading,
    fields: &Fields,
    labels: Pairs,
    image: Option<Text>,
    endpoints: Option<List<Endpoint>>,
) -> Option<Boxed<ContainerSpec>> {
    let binds = texts_where(reading, fields, "binds");
    let mode = text_where(reading, fields, "network_mode");
    let test = texts_where(reading, fields, "healthcheck");
    let spec = spec_with(reading.alloc, labels, image, endpoints, binds, mode, test);
    boxed(reading, spec)
}

fn text_where(reading: &mut Reading, fields: &Fields, key: &str) -> Option<Text> {
    if fields.has(key) {
        Some(reading.text_at(fields, key))
    } else {
        None
    }
}

fn texts_where(reading: &mut Reading, fields: &Fields, key: &str) -> Option<List<Text>> {
    if fields.has(key) {
        Some(reading.texts(fields, key))
    } else {
        None
    }
}

/// A health check with the items of its test, where there are some. No memory.
fn healthcheck_of(test: Option<List<Text>>) -> Option<Healthcheck> {
    Some(Healthcheck {
        test: Some(test?),
        interval: None,
        timeout: None,
        start_period: None,
        retries: None,
    })
}

/// What was read of a container, behind a box; None, and the want of memory is kept, where there is none for it.
pub(crate) fn boxed(reading: &mut Reading, spec: ContainerSpec) -> Option<Boxed<ContainerSpec>> {
    match Boxed::new(reading.alloc, spec) {
        Ok(spec) => Some(spec),
        Err(Memory) => {
            reading.memory();
            None
        }
    }
}

/// A spec of these members alone. No memory.
pub(crate) fn spec_with(
    alloc: Global,
    labels: Pairs,
    image: Option<Text>,
    endpoints_config: Option<List<Endpoint>>,
    binds: Option<List<Text>>,
    network_mode: Option<Text>,
    test: Option<List<Text>>,
) -> ContainerSpec {
    ContainerSpec {
        labels,
        image,
        binds,
        network_mode,
        endpoints_config,
        healthcheck: healthcheck_of(test),
        ..ContainerSpec::empty(alloc)
    }
}
