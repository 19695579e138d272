use crate::members::{member_of, named_members, text_tree};
use cases_ground::Entries;
use engine_bodies::{body_of, request_bytes};
use engine_types::{NetworkSpec, Request, Slot, VolumeSpec};
use std::alloc::Global;
use std::str;
use tree_base::{List, Map, Memory, Text, Tree, TryCopy};
use yaml_lines::{YamlRefusal, scan};
use yaml_tree::read;

/// The request that makes a slot's container.
pub(crate) fn create_of(alloc: Global, slot: &Slot) -> Result<Request, Memory> {
    let name = slot.name.copy(alloc)?;
    let spec = slot.spec.copy(alloc)?;
    Ok(Request::Create { name, spec })
}

/// The request that makes a network.
pub(crate) fn network_of(alloc: Global, network: &NetworkSpec) -> Result<Request, Memory> {
    Ok(Request::MakeNetwork {
        spec: network.copy(alloc)?,
    })
}

/// The request that makes a volume.
pub(crate) fn volume_of(alloc: Global, volume: &VolumeSpec) -> Result<Request, Memory> {
    Ok(Request::MakeVolume {
        spec: volume.copy(alloc)?,
    })
}

/// What is sent for a request that was made: of its body those members that are wanted under `sent`, the whole text as `body`,
/// or the request's `line`.
pub(crate) fn sent(
    alloc: Global,
    request: Result<Request, Memory>,
    name: &str,
    wanted: &Tree,
) -> Result<Tree, Memory> {
    match request {
        Ok(request) => {
            let made = part_of(alloc, &request, name, wanted);
            drop(request);
            made
        }
        Err(Memory) => Err(Memory),
    }
}

fn part_of(alloc: Global, request: &Request, name: &str, wanted: &Tree) -> Result<Tree, Memory> {
    match name {
        "sent" => wanted_of_body(alloc, request, wanted),
        "body" => body_text(alloc, request),
        _ => line_of(alloc, request),
    }
}

fn body_text(alloc: Global, request: &Request) -> Result<Tree, Memory> {
    match body_of(alloc, request)? {
        Some(body) => Ok(Tree::Scalar(body)),
        None => Ok(Tree::Null),
    }
}

/// The request line.
fn line_of(alloc: Global, request: &Request) -> Result<Tree, Memory> {
    let bytes = request_bytes(alloc, request)?;
    first_line(alloc, &bytes)
}

fn first_line(alloc: Global, bytes: &List<u8>) -> Result<Tree, Memory> {
    let text = str::from_utf8(bytes.as_slice()).unwrap_or("");
    let (line, _) = text.split_once("\r\n").unwrap_or((text, ""));
    text_tree(alloc, line)
}

/// Of a body those members that are wanted, and of its `HostConfig` too.
fn wanted_of_body(alloc: Global, request: &Request, wanted: &Tree) -> Result<Tree, Memory> {
    let body = body_tree(alloc, request)?;
    let made = wanted_of(alloc, &body, wanted);
    drop(body);
    made
}

fn wanted_of(alloc: Global, body: &Tree, wanted: &Tree) -> Result<Tree, Memory> {
    match (body, wanted) {
        (Tree::Map(body), Tree::Map(wanted)) => wanted_members(alloc, body.get(), wanted.get()),
        _ => body.copy(alloc),
    }
}

fn wanted_members(alloc: Global, body: &Map, wanted: &Map) -> Result<Tree, Memory> {
    let mut members = Entries::new(alloc);
    for (key, wanted) in wanted.keys().iter().zip(wanted.values()) {
        members.tree(
            key.as_str(),
            wanted_member(alloc, body, key.as_str(), wanted),
        );
    }
    members.whole()
}

fn wanted_member(alloc: Global, body: &Map, key: &str, wanted: &Tree) -> Result<Tree, Memory> {
    match body.find(key) {
        Some(tree) if key == "HostConfig" => named_members(alloc, tree, wanted),
        _ => member_of(alloc, body, key),
    }
}

/// A body as a tree: JSON is a flow collection of YAML.
fn body_tree(alloc: Global, request: &Request) -> Result<Tree, Memory> {
    match body_of(alloc, request)? {
        Some(body) => json_tree(alloc, &body),
        None => Ok(Tree::Null),
    }
}

/// The tree of a text of JSON; the text itself where it is none.
fn json_tree(alloc: Global, body: &Text) -> Result<Tree, Memory> {
    match yaml_of(alloc, body.as_str().as_bytes()) {
        Ok(tree) => Ok(tree),
        Err(YamlRefusal::Memory) => Err(Memory),
        Err(_) => text_tree(alloc, body.as_str()),
    }
}

fn yaml_of(alloc: Global, bytes: &[u8]) -> Result<Tree, YamlRefusal> {
    let lines = scan(alloc, bytes, 0)?;
    read(alloc, &lines)
}
