use crate::labels::{container_labels, resource_labels};
use case_files::{Fields, Line, Reading};
use cases_messages::{condition_of, network_named, policy_of, spec_of, volume_named};
use engine_types::{
    Attach, Condition, ContainerSpec, Declared, DeclaredService, Endpoint, Need, NetworkSpec,
    Policy, Slot, VolumeSpec, labels,
};
use tree_base::{Boxed, List, Text, Tree, TryCopy};

/// What a project declares, by `project`, `slots`, `services`, `networks` and `volumes`.
///
/// A slot has its `service`, `number` (1), `name` (`PROJECT-SERVICE-NUMBER`), `image`, `policy` (missing), `has_build`,
/// `hash`, `old_hash` (the hash), `attach` (names of declared networks, or each as `{network: .., aliases: [..]}`),
/// `needs` (each as `0 healthy`, with `optional`, `restart` or both behind it), `goal` (running), `stop_seconds` (10),
/// and what its container is made with: `labels` (those by which it is known), `binds`, `network_mode`, `healthcheck`. A
/// network or a volume is a name, or has `name`, `key` or `labels`, and `external`; of a network `times` says how many
/// there are. A service has its `key`, `depends_on`, and `roll`; where none is given, they are those of the slots, each
/// of which depends on the services of the slots that it needs.
pub fn declared_of(reading: &mut Reading, fields: &Fields) -> Declared {
    let project = reading.text_or(fields, "project", "");
    let networks = networks_of(reading, fields, &project);
    let volumes = volumes_of(reading, fields, &project);
    let slots = slots_of(reading, fields, &project, networks.as_slice());
    let services = services_of(reading, fields, slots.as_slice());
    Declared {
        project,
        slots,
        services,
        networks,
        volumes,
    }
}

/// The services that are given, or those of the slots.
fn services_of(reading: &mut Reading, fields: &Fields, slots: &[Slot]) -> List<DeclaredService> {
    let mut services = List::new(reading.alloc);
    for tree in reading.items(fields, "services") {
        if let Some(fields) = reading.fields_of(tree, "a service") {
            let service = service_of(reading, &fields);
            reading.push(&mut services, service);
        }
    }
    if services.is_empty() {
        return services_of_slots(reading, slots);
    }
    services
}

fn service_of(reading: &mut Reading, fields: &Fields) -> DeclaredService {
    let roll = reading.small_or(fields, "roll", 0);
    DeclaredService {
        key: reading.text_at(fields, "key"),
        depends_on: reading.texts(fields, "depends_on"),
        roll: if roll == 0 { None } else { Some(roll) },
    }
}

/// The services of slots, each once, in the slots' order.
fn services_of_slots(reading: &mut Reading, slots: &[Slot]) -> List<DeclaredService> {
    let mut services = List::new(reading.alloc);
    for slot in slots {
        if !has_key(services.as_slice(), &slot.service) {
            let service = service_with(reading, slot, slots);
            reading.push(&mut services, service);
        }
    }
    services
}

fn has_key(services: &[DeclaredService], key: &Text) -> bool {
    for service in services {
        if service.key == *key {
            return true;
        }
    }
    false
}

/// The service of a slot, which depends on the services of the slots that it needs.
fn service_with(reading: &mut Reading, slot: &Slot, slots: &[Slot]) -> DeclaredService {
    let mut depends_on = List::new(reading.alloc);
    for need in slot.needs.as_slice() {
        if let Some(needed) = slots.get(need.slot as usize) {
            let key = reading.text(needed.service.as_str());
            reading.push(&mut depends_on, key);
        }
    }
    DeclaredService {
        key: reading.text(slot.service.as_str()),
        depends_on,
        roll: None,
    }
}

fn networks_of(reading: &mut Reading, fields: &Fields, project: &Text) -> List<NetworkSpec> {
    let mut networks = List::new(reading.alloc);
    for tree in reading.items(fields, "networks") {
        push_networks(reading, tree, project, &mut networks);
    }
    networks
}

/// Puts a network last, or so many as its `times` says.
fn push_networks(
    reading: &mut Reading,
    tree: &Tree,
    project: &Text,
    networks: &mut List<NetworkSpec>,
) {
    if let Some(name) = reading.word(tree) {
        let network = network_named(reading.text(name), List::new(reading.alloc), false);
        reading.push(networks, network);
    } else if let Some(fields) = reading.fields_of(tree, "a network") {
        for _ in 0..reading.number_or(&fields, "times", 1) {
            let network = network_of(reading, &fields, project);
            reading.push(networks, network);
        }
    }
}

fn network_of(reading: &mut Reading, fields: &Fields, project: &Text) -> NetworkSpec {
    let name = reading.text_at(fields, "name");
    let labels = resource_labels(reading, fields, labels::NETWORK, project);
    network_named(name, labels, reading.flag(fields, "external"))
}

fn volumes_of(reading: &mut Reading, fields: &Fields, project: &Text) -> List<VolumeSpec> {
    let mut volumes = List::new(reading.alloc);
    for tree in reading.items(fields, "volumes") {
        push_volume(reading, tree, project, &mut volumes);
    }
    volumes
}

fn push_volume(reading: &mut Reading, tree: &Tree, project: &Text, volumes: &mut List<VolumeSpec>) {
    if let Some(name) = reading.word(tree) {
        let volume = volume_named(reading.text(name), List::new(reading.alloc), false);
        reading.push(volumes, volume);
    } else if let Some(fields) = reading.fields_of(tree, "a volume") {
        let volume = volume_of(reading, &fields, project);
        reading.push(volumes, volume);
    }
}

fn volume_of(reading: &mut Reading, fields: &Fields, project: &Text) -> VolumeSpec {
    let name = reading.text_at(fields, "name");
    let labels = resource_labels(reading, fields, labels::VOLUME, project);
    volume_named(name, labels, reading.flag(fields, "external"))
}

fn slots_of(
    reading: &mut Reading,
    fields: &Fields,
    project: &Text,
    networks: &[NetworkSpec],
) -> List<Slot> {
    let mut slots = List::new(reading.alloc);
    for tree in reading.items(fields, "slots") {
        if let Some(fields) = reading.fields_of(tree, "a slot") {
            if let Some(slot) = slot_with(reading, &fields, project, networks) {
                reading.push(&mut slots, slot);
            }
        }
    }
    slots
}

/// A slot of a project, which attaches to no network, by the fields that `declared_of` names. None, and the want of memory
/// is kept, where there is none for what its container is made with.
pub fn slot_of(reading: &mut Reading, fields: &Fields, project: &Text) -> Option<Slot> {
    slot_with(reading, fields, project, &[])
}

/// The slot of a mapping, for a project with these networks.
fn slot_with(
    reading: &mut Reading,
    fields: &Fields,
    project: &Text,
    networks: &[NetworkSpec],
) -> Option<Slot> {
    let service = reading.text_at(fields, "service");
    let attach = attach_of(reading, fields, service.as_str(), networks);
    let spec = spec_in(reading, fields, project, attach.as_slice(), networks)?;
    let number = reading.small_or(fields, "number", 1);
    let hash = reading.text_or(fields, "hash", "");
    Some(Slot {
        name: slot_name(reading, fields, project, &service, number),
        service,
        number,
        image: reading.text_or(fields, "image", ""),
        policy: policy_in(reading, fields),
        has_build: reading.flag(fields, "has_build"),
        old_hash: reading.text_or(fields, "old_hash", hash.as_str()),
        hash,
        spec,
        attach,
        needs: needs_of(reading, fields),
        goal: goal_in(reading, fields),
        stop_seconds: reading.number_or(fields, "stop_seconds", 10),
    })
}

/// What the container of a slot is made with.
fn spec_in(
    reading: &mut Reading,
    fields: &Fields,
    project: &Text,
    attach: &[Attach],
    networks: &[NetworkSpec],
) -> Option<Boxed<ContainerSpec>> {
    let labels = container_labels(reading, fields, project);
    let image = reading.text_or(fields, "image", "");
    let endpoints = endpoints_of(reading, attach, networks);
    spec_of(reading, fields, labels, Some(image), endpoints)
}

fn policy_in(reading: &mut Reading, fields: &Fields) -> Policy {
    let word = reading.text_or(fields, "policy", "missing");
    policy_of(reading, word.as_str())
}

fn goal_in(reading: &mut Reading, fields: &Fields) -> Condition {
    let word = reading.text_or(fields, "goal", "running");
    condition_of(reading, word.as_str())
}

fn slot_name(
    reading: &mut Reading,
    fields: &Fields,
    project: &Text,
    service: &Text,
    number: u32,
) -> Text {
    let mut name = Line::new(reading.alloc);
    name.put(project.as_str());
    name.put("-");
    name.put(service.as_str());
    name.put("-");
    name.put_number(u64::from(number));
    let name = reading.said(name);
    reading.text_or(fields, "name", name.as_str())
}

/// The networks that a slot attaches to.
fn attach_of(
    reading: &mut Reading,
    fields: &Fields,
    service: &str,
    networks: &[NetworkSpec],
) -> List<Attach> {
    let mut attach = List::new(reading.alloc);
    for tree in reading.items(fields, "attach") {
        push_attach(reading, tree, service, networks, &mut attach);
    }
    attach
}

/// Puts a network last, by its name with the service for its alias, or with `aliases`.
fn push_attach(
    reading: &mut Reading,
    tree: &Tree,
    service: &str,
    networks: &[NetworkSpec],
    attach: &mut List<Attach>,
) {
    if let Some(name) = reading.word(tree) {
        let item = Attach {
            network: place_of(reading, name, networks),
            aliases: alias(reading, service),
        };
        reading.push(attach, item);
    } else if let Some(fields) = reading.fields_of(tree, "attach") {
        let name = reading.text_at(&fields, "network");
        let item = Attach {
            network: place_of(reading, name.as_str(), networks),
            aliases: reading.texts(&fields, "aliases"),
        };
        reading.push(attach, item);
    }
}

fn alias(reading: &mut Reading, service: &str) -> List<Text> {
    let mut aliases = List::new(reading.alloc);
    let service = reading.text(service);
    reading.push(&mut aliases, service);
    aliases
}

/// The place of the network with a name.
fn place_of(reading: &mut Reading, name: &str, networks: &[NetworkSpec]) -> u32 {
    let mut place = 0u32;
    for network in networks {
        if network.name.as_str() == name {
            return place;
        }
        place = place.saturating_add(1);
    }
    reading.refuse_word("a declared network", name);
    0
}

/// The network that a slot's container is made on: the first that it attaches to.
fn endpoints_of(
    reading: &mut Reading,
    attach: &[Attach],
    networks: &[NetworkSpec],
) -> Option<List<Endpoint>> {
    let first = attach.first()?;
    let network = networks.get(first.network as usize)?;
    let key = reading.text(network.name.as_str());
    let alloc = reading.alloc;
    let aliases = reading.given(first.aliases.copy(alloc), List::new(alloc));
    let mut endpoints = List::new(alloc);
    reading.push(&mut endpoints, Endpoint { key, aliases });
    Some(endpoints)
}

fn needs_of(reading: &mut Reading, fields: &Fields) -> List<Need> {
    let mut needs = List::new(reading.alloc);
    for tree in reading.items(fields, "needs") {
        let words = reading.text_of(tree, "needs");
        let need = need_of(reading, words.as_str());
        reading.push(&mut needs, need);
    }
    needs
}

/// A need of words: the slot's place, the condition, `optional` where it isn't required, and `restart` where it asks for
/// one.
fn need_of(reading: &mut Reading, words: &str) -> Need {
    let mut words = words.split_whitespace();
    let place = words.next().unwrap_or("");
    let condition = words.next().unwrap_or("");
    let mut need = Need {
        slot: reading.place("a slot's place", place),
        condition: condition_of(reading, condition),
        required: true,
        restart: false,
    };
    for word in words {
        match word {
            "optional" => need.required = false,
            "restart" => need.restart = true,
            _ => reading.refuse_word("a word of a need", word),
        }
    }
    need
}
