use crate::members::{flag_tree, labels_tree, text_tree};
use crate::sent::{network_of, sent, volume_of};
use case_files::{Answers, Fields, Reading};
use cases_ground::{Entries, Items};
use engine_types::{Declared, NetworkSpec, VolumeSpec};
use tree_base::{Map, Memory, Tree};

/// Puts the networks, each as what is wanted at its place: the members that a mapping names, or else its name.
pub(crate) fn put_networks(declared: &Declared, fields: &Fields, answers: &mut Answers) {
    if fields.has("networks") {
        let wanted = answers.reading.items(fields, "networks");
        let networks = networks_tree(&mut answers.reading, declared, wanted);
        answers.put_made("networks", networks);
    }
}

/// Puts the volumes, each as the networks are put.
pub(crate) fn put_volumes(declared: &Declared, fields: &Fields, answers: &mut Answers) {
    if fields.has("volumes") {
        let wanted = answers.reading.items(fields, "volumes");
        let volumes = volumes_tree(&mut answers.reading, declared, wanted);
        answers.put_made("volumes", volumes);
    }
}

fn networks_tree(
    reading: &mut Reading,
    declared: &Declared,
    wanted: &[Tree],
) -> Result<Tree, Memory> {
    let mut networks = Items::new(reading.alloc);
    for (at, network) in declared.networks.as_slice().iter().enumerate() {
        networks.tree(network_tree(reading, network, wanted.get(at)));
    }
    networks.whole()
}

fn volumes_tree(
    reading: &mut Reading,
    declared: &Declared,
    wanted: &[Tree],
) -> Result<Tree, Memory> {
    let mut volumes = Items::new(reading.alloc);
    for (at, volume) in declared.volumes.as_slice().iter().enumerate() {
        volumes.tree(volume_tree(reading, volume, wanted.get(at)));
    }
    volumes.whole()
}

fn network_tree(
    reading: &mut Reading,
    network: &NetworkSpec,
    wanted: Option<&Tree>,
) -> Result<Tree, Memory> {
    match wanted {
        Some(Tree::Map(wanted)) => network_members(reading, network, wanted.get()),
        _ => text_tree(reading.alloc, network.name.as_str()),
    }
}

fn volume_tree(
    reading: &mut Reading,
    volume: &VolumeSpec,
    wanted: Option<&Tree>,
) -> Result<Tree, Memory> {
    match wanted {
        Some(Tree::Map(wanted)) => volume_members(reading, volume, wanted.get()),
        _ => text_tree(reading.alloc, volume.name.as_str()),
    }
}

fn network_members(
    reading: &mut Reading,
    network: &NetworkSpec,
    wanted: &Map,
) -> Result<Tree, Memory> {
    let mut members = Entries::new(reading.alloc);
    for (name, wanted) in wanted.keys().iter().zip(wanted.values()) {
        let member = network_member(reading, network, name.as_str(), wanted);
        members.tree(name.as_str(), member);
    }
    members.whole()
}

fn volume_members(
    reading: &mut Reading,
    volume: &VolumeSpec,
    wanted: &Map,
) -> Result<Tree, Memory> {
    let mut members = Entries::new(reading.alloc);
    for (name, wanted) in wanted.keys().iter().zip(wanted.values()) {
        let member = volume_member(reading, volume, name.as_str(), wanted);
        members.tree(name.as_str(), member);
    }
    members.whole()
}

fn network_member(
    reading: &mut Reading,
    network: &NetworkSpec,
    name: &str,
    wanted: &Tree,
) -> Result<Tree, Memory> {
    let alloc = reading.alloc;
    match name {
        "name" => text_tree(alloc, network.name.as_str()),
        "external" => flag_tree(alloc, network.external),
        "labels" => labels_tree(alloc, &network.labels, wanted),
        "sent" | "body" => sent(alloc, network_of(alloc, network), name, wanted),
        _ => {
            reading.refuse_word("a member of a network", name);
            Ok(Tree::Null)
        }
    }
}

fn volume_member(
    reading: &mut Reading,
    volume: &VolumeSpec,
    name: &str,
    wanted: &Tree,
) -> Result<Tree, Memory> {
    let alloc = reading.alloc;
    match name {
        "name" => text_tree(alloc, volume.name.as_str()),
        "external" => flag_tree(alloc, volume.external),
        "labels" => labels_tree(alloc, &volume.labels, wanted),
        "sent" | "body" => sent(alloc, volume_of(alloc, volume), name, wanted),
        _ => {
            reading.refuse_word("a member of a volume", name);
            Ok(Tree::Null)
        }
    }
}
