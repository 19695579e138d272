ghost use Rattle.std.specs.Prelude.{◌≡◌, ◌++◌, ◌∷◌, [], IfOk, OnOk, filter, find, flat_map, map, not};
ghost use Rattle.std.specs.Option.{option_copied};
ghost use Rattle.attribute_scalars.specs.Walks.{is_in};
ghost use Rattle.project_meaning.specs.Completing.{files_named, volume_of_mount};
ghost use Rattle.project_meaning.specs.Names.{AreInOrder, named, sorted};

use crate::keys::put_key;
use attribute_types::{Dependency, FileUse, NetworkUse, files_named};
use loaded_files::Kind;
use short_forms::{Mount, MountKind};
use std::alloc::Global;
use tree_base::{Memory, Text};
use typed_project::Service;

/// Names, put in byte order.
pub(crate) fn in_order(names: Vec<Text>) -> Result<Vec<Text>, Memory>
    ensures value { IfOk result (λ all. all.items ≡ sorted names.items) }
    ensures order { IfOk result (λ all. AreInOrder all.items) }
{
    let mut all = names;
    all.sort()?;
    Ok(all)
}

/// Whether a name is one of some, which stand in byte order: it is looked for by halves. No memory.
pub(crate) fn is_in(names: &[Text], name: &Text) -> bool
    ensures { AreInOrder names.now → result ≡ is_in names.now name.now }
{
    names.binary_search(name).is_ok()
}

/// All that services name of a kind, in byte order.
pub(crate) fn all_named(
    alloc: Global,
    kind: Kind,
    services: &[Service],
) -> Result<Vec<Text>, Memory>
    ensures value { IfOk result (λ names. names.items
        ≡ sorted (flat_map (named kind) services.now)) }
    ensures order { IfOk result (λ names. AreInOrder names.items) }
{
    let mut names = Vec::new(alloc);
    put_all_named(alloc, kind, services, &mut names)?;
    in_order(names)
}

fn put_all_named(
    alloc: Global,
    kind: Kind,
    services: &[Service],
    names: &mut Vec<Text>,
) -> Result<(), Memory>
    ensures { OnOk result (names.new.items
        ≡ names.old.items ++ flat_map (named kind) services.now) }
{
    for service in services {
        put_named(alloc, kind, service, names)?;
    }
    Ok(())
}

/// What a service names of a kind, in byte order.
pub(crate) fn named(alloc: Global, kind: Kind, service: &Service) -> Result<Vec<Text>, Memory>
    ensures { IfOk result (λ names. names.items ≡ sorted (named kind service.now)) }
{
    let mut names = Vec::new(alloc);
    put_named(alloc, kind, service, &mut names)?;
    in_order(names)
}

/// Puts what a service names of a kind last.
fn put_named(
    alloc: Global,
    kind: Kind,
    service: &Service,
    names: &mut Vec<Text>,
) -> Result<(), Memory>
    ensures { OnOk result (names.new.items ≡ names.old.items ++ named kind service.now) }
{
    match kind {
        Kind::Network => match service.networks() {
            Some(list) => put_networks(alloc, list.as_slice(), names),
            None => Ok(()),
        },
        Kind::Volume => match service.volumes() {
            Some(list) => put_volumes(alloc, list.as_slice(), names),
            None => Ok(()),
        },
        Kind::Service => match service.depends_on() {
            Some(list) => put_required(alloc, list.as_slice(), names),
            None => Ok(()),
        },
        Kind::Secret => put_files_named(alloc, "secrets", service, names),
        Kind::Config => put_files_named(alloc, "configs", service, names),
    }
}

fn put_networks(alloc: Global, list: &[NetworkUse], names: &mut Vec<Text>) -> Result<(), Memory>
    ensures { OnOk result (names.new.items
        ≡ names.old.items ++ map (λ joined. joined.key) list.now) }
{
    for joined in list {
        put_key(alloc, &joined.key, names)?;
    }
    Ok(())
}

fn put_volumes(alloc: Global, list: &[Mount], names: &mut Vec<Text>) -> Result<(), Memory>
    ensures { OnOk result (names.new.items ≡ names.old.items
        ++ flat_map (λ mount. volume_of_mount mount.kind mount.source) list.now) }
{
    for mount in list {
        put_volume(alloc, mount, names)?;
    }
    Ok(())
}

/// Puts the key of the volume last that a mount is of, where it is of one with a key.
fn put_volume(alloc: Global, mount: &Mount, names: &mut Vec<Text>) -> Result<(), Memory>
    ensures { OnOk result (names.new.items ≡ names.old.items
        ++ volume_of_mount mount.now.kind mount.now.source) }
{
    match (mount.kind, &mount.source) {
        (MountKind::Volume, Some(source)) => put_key(alloc, source, names),
        _ => Ok(()),
    }
}

fn put_required(alloc: Global, list: &[Dependency], names: &mut Vec<Text>) -> Result<(), Memory>
    ensures { OnOk result (names.new.items ≡ names.old.items
        ++ map (λ need. need.key) (filter (λ need. need.required) list.now)) }
{
    for need in list {
        put_if_required(alloc, need, names)?;
    }
    Ok(())
}

fn put_if_required(alloc: Global, need: &Dependency, names: &mut Vec<Text>) -> Result<(), Memory>
    ensures { OnOk result (names.new.items ≡ names.old.items
        ++ map (λ need. need.key) (filter (λ need. need.required) (need.now ∷ []))) }
{
    if need.required {
        put_key(alloc, &need.key, names)
    } else {
        Ok(())
    }
}

fn put_files_named(
    alloc: Global,
    name: &str,
    service: &Service,
    names: &mut Vec<Text>,
) -> Result<(), Memory>
    ensures { OnOk result (names.new.items ≡ names.old.items ++ files_named name.now service.now) }
{
    match files_named(service.attributes.as_slice(), name) {
        Some(list) => put_files(alloc, list.as_slice(), names),
        None => Ok(()),
    }
}

fn put_files(alloc: Global, list: &[FileUse], names: &mut Vec<Text>) -> Result<(), Memory>
    ensures { OnOk result (names.new.items
        ≡ names.old.items ++ map (λ file. file.source) list.now) }
{
    for file in list {
        put_key(alloc, &file.source, names)?;
    }
    Ok(())
}

/// The least of some names, which stand in byte order, that isn't there. No memory.
pub(crate) fn first_missing<'a>(there: &[Text], names: &'a [Text]) -> Option<&'a Text>
    requires { AreInOrder there.now }
    ensures { option_copied result ≡ find (λ name. not (is_in there.now name)) names.now }
{
    for name in names {
        if !is_in(there, name) {
            return Some(name);
        }
    }
    None
}
