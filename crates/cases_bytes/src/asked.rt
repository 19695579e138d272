use crate::containers::container_of;
use crate::resources::{network_of, volume_of};
use case_files::{Fields, Reading};
use cases_messages::read_request;
use engine_types::Request;
use tree_base::{Boxed, Memory};

/// The request in the words under a key. Where the case has a `spec`, it is of a `create NAME`, `network NAME` or `volume
/// NAME`, and says what is made.
pub(crate) fn request_at(reading: &mut Reading, fields: &Fields, key: &str) -> Request {
    let line = reading.text_at(fields, key);
    match reading.fields(fields, "spec") {
        Some(spec) => making(reading, line.as_str(), &spec),
        None => read_request(reading, line.as_str()),
    }
}

/// A request for something that is said in whole.
fn making(reading: &mut Reading, line: &str, spec: &Fields) -> Request {
    let (verb, name) = line.split_once(' ').unwrap_or((line, ""));
    match verb {
        "create" => create(reading, name, spec),
        "network" => {
            let name = reading.text(name);
            Request::MakeNetwork {
                spec: network_of(reading, name, spec),
            }
        }
        "volume" => {
            let name = reading.text(name);
            Request::MakeVolume {
                spec: volume_of(reading, name, spec),
            }
        }
        _ => {
            reading.refuse_word("a request that makes something", verb);
            Request::ListNetworks
        }
    }
}

fn create(reading: &mut Reading, name: &str, spec: &Fields) -> Request {
    let container = container_of(reading, spec);
    match Boxed::new(reading.alloc, container) {
        Ok(spec) => Request::Create {
            name: reading.text(name),
            spec,
        },
        Err(Memory) => {
            reading.memory();
            Request::ListNetworks
        }
    }
}
