use crate::ids::{id_of, say_id};
use crate::resource::{network_named, volume_named};
use crate::spec::{boxed, spec_with};
use case_files::{Line, Reading};
use engine_types::{ContainerSpec, Endpoint, Request};
use std::alloc::Global;
use std::str::SplitWhitespace;
use tree_base::{Boxed, List, Text};

/// The request of a line: `containers PROJECT`, `inspect ID`, `logs ID`, `create NAME IMAGE [NETWORK | +VOLUME]..` (a
/// volume is bound at `/data`), `start ID`, `stop ID SECONDS` (10), `remove ID`, `networks`, `network NAME`,
/// `connect NETWORK CONTAINER [ALIAS]..` by ids, `remove-network ID`, `volumes`, `volume NAME`, `remove-volume NAME`,
/// `image NAME`, `pull NAME`. An id may be `0..1f`, the one of 64 digits which ends so.
pub fn read_request(reading: &mut Reading, line: &str) -> Request {
    let mut words = line.split_whitespace();
    let verb = words.next().unwrap_or("");
    let name = words.next().unwrap_or("");
    match verb {
        "inspect" => Request::Inspect {
            id: id_of(reading, name),
        },
        "logs" => Request::Logs {
            id: id_of(reading, name),
        },
        "create" => create(reading, name, words),
        "start" => Request::Start {
            id: id_of(reading, name),
        },
        "stop" => stop(reading, name, words.next()),
        "remove" => Request::Remove {
            id: id_of(reading, name),
        },
        "connect" => connect(reading, name, words),
        _ => other_request(reading, verb, name),
    }
}

/// A request for listings, networks, volumes or images.
fn other_request(reading: &mut Reading, verb: &str, name: &str) -> Request {
    match verb {
        "containers" => Request::ListContainers {
            project: reading.text(name),
        },
        "networks" => Request::ListNetworks,
        "volumes" => Request::ListVolumes,
        "network" => Request::MakeNetwork {
            spec: network_named(reading.text(name), List::new(reading.alloc), false),
        },
        "volume" => Request::MakeVolume {
            spec: volume_named(reading.text(name), List::new(reading.alloc), false),
        },
        "remove-network" => Request::RemoveNetwork {
            id: id_of(reading, name),
        },
        "remove-volume" => Request::RemoveVolume {
            name: reading.text(name),
        },
        "image" => Request::Image {
            name: reading.text(name),
        },
        "pull" => Request::Pull {
            name: reading.text(name),
        },
        _ => {
            reading.refuse_word("a request", verb);
            Request::ListNetworks
        }
    }
}

fn stop(reading: &mut Reading, name: &str, seconds: Option<&str>) -> Request {
    let seconds = match seconds {
        Some(seconds) => reading.number(seconds),
        None => 10,
    };
    Request::Stop {
        id: id_of(reading, name),
        seconds,
    }
}

fn connect(reading: &mut Reading, network: &str, mut words: SplitWhitespace<'_>) -> Request {
    let container = words.next().unwrap_or("");
    Request::Connect {
        network: id_of(reading, network),
        container: id_of(reading, container),
        aliases: texts_of(reading, words),
    }
}

fn texts_of(reading: &mut Reading, words: SplitWhitespace<'_>) -> List<Text> {
    let mut texts = List::new(reading.alloc);
    for word in words {
        let text = reading.text(word);
        reading.push(&mut texts, text);
    }
    texts
}

fn create(reading: &mut Reading, name: &str, mut words: SplitWhitespace<'_>) -> Request {
    let image = words.next().unwrap_or("");
    match created_spec(reading, image, words) {
        Some(spec) => Request::Create {
            name: reading.text(name),
            spec,
        },
        None => Request::ListNetworks,
    }
}

/// What a container is made with: its image, networks, and volumes, which stand behind a `+`.
fn created_spec(
    reading: &mut Reading,
    image: &str,
    words: SplitWhitespace<'_>,
) -> Option<Boxed<ContainerSpec>> {
    let mut endpoints = List::new(reading.alloc);
    let mut binds = List::new(reading.alloc);
    for word in words {
        match word.strip_prefix("+") {
            Some(volume) => push_bind(reading, &mut binds, volume),
            None => push_endpoint(reading, &mut endpoints, word),
        }
    }
    let image = Some(reading.text(image));
    let labels = List::new(reading.alloc);
    let spec = spec_with(
        reading.alloc,
        labels,
        image,
        Some(endpoints),
        Some(binds),
        None,
        None,
    );
    boxed(reading, spec)
}

fn push_bind(reading: &mut Reading, binds: &mut List<Text>, volume: &str) {
    let mut bind = Line::new(reading.alloc);
    bind.put(volume);
    bind.put(":/data");
    let bind = reading.said(bind);
    reading.push(binds, bind);
}

fn push_endpoint(reading: &mut Reading, endpoints: &mut List<Endpoint>, network: &str) {
    let endpoint = Endpoint {
        key: reading.text(network),
        aliases: List::new(reading.alloc),
    };
    reading.push(endpoints, endpoint);
}

/// The line of a request, as `read_request` reads it; of a create the name alone.
pub fn request_line(alloc: Global, request: &Request) -> Line {
    let mut line = Line::new(alloc);
    say_request(&mut line, request);
    line
}

/// The same on a line.
pub(crate) fn say_request(line: &mut Line, request: &Request) {
    match request {
        Request::ListContainers { project } => say_of(line, "containers", project),
        Request::Inspect { id } => say_of_id(line, "inspect", id),
        Request::Logs { id } => say_of_id(line, "logs", id),
        Request::Create { name, .. } => say_of(line, "create", name),
        Request::Start { id } => say_of_id(line, "start", id),
        Request::Stop { id, seconds } => say_stop(line, id, *seconds),
        Request::Remove { id } => say_of_id(line, "remove", id),
        Request::ListNetworks => line.word("networks"),
        Request::MakeNetwork { spec } => say_of(line, "network", &spec.name),
        Request::Connect {
            network,
            container,
            aliases,
        } => say_connect(line, network, container, aliases.as_slice()),
        Request::RemoveNetwork { id } => say_of_id(line, "remove-network", id),
        Request::ListVolumes => line.word("volumes"),
        Request::MakeVolume { spec } => say_of(line, "volume", &spec.name),
        Request::RemoveVolume { name } => say_of(line, "remove-volume", name),
        Request::Image { name } => say_of(line, "image", name),
        Request::Pull { name } => say_of(line, "pull", name),
    }
}

/// Says a verb and the name of what it speaks of.
pub(crate) fn say_of(line: &mut Line, verb: &str, name: &Text) {
    line.word(verb);
    line.word(name.as_str());
}

/// Says a verb and the id of what it speaks of.
pub(crate) fn say_of_id(line: &mut Line, verb: &str, id: &Text) {
    line.word(verb);
    say_id(line, id.as_str());
}

fn say_stop(line: &mut Line, id: &Text, seconds: u64) {
    say_of_id(line, "stop", id);
    line.number(seconds);
}

fn say_connect(line: &mut Line, network: &Text, container: &Text, aliases: &[Text]) {
    say_of_id(line, "connect", network);
    say_id(line, container.as_str());
    line.words(aliases);
}
