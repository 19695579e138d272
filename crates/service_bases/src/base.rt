ghost use Rattle.std.specs.Prelude.{◌≡◌, IfOk, IsTrue};
ghost use Rattle.std.specs.List.{AllByRecursion};
ghost use Rattle.std.specs.Option.{option_copied, option_map};
ghost use Rattle.service_bases.specs.Bases.{AllAlone, Alone, at_service, base_named, extends_in, extends_of, is_at};
ghost use Rattle.tree_base.specs.declared.Tree.{out-Tree};

use loaded_files::{ServiceAt, text_at};
use std::alloc::Global;
use tree_base::{Map, Memory, Text, Tree};

/// What a service extends: a service, and maybe the file in which it stands.
#[derive(Drop)]
pub struct Base {
    pub file: Option<Text>,
    pub service: Text,
}

/// What a service extends, where it extends one.
pub(crate) fn extends_of(alloc: Global, service: &Map) -> Result<Option<Base>, Memory>
    ensures { IfOk result (λ base. base ≡ extends_of service.now) }
{
    match service.find("extends") {
        Some(tree) => extends_in(alloc, tree),
        None => Ok(None),
    }
}

/// Whether no service of these extends anything, as in most files. No memory.
pub(crate) fn extend_nothing(services: &Map) -> bool
    ensures { IsTrue result → AllAlone services.now }
{
    are_alone(services.values())
}

/// Whether each of some trees is a service that extends nothing.
fn are_alone(services: &[Tree]) -> bool
    ensures { IsTrue result → AllByRecursion Alone services.now }
{
    for service in services {
        if !is_alone(service) {
            return false;
        }
    }
    true
}

/// Whether a tree is a service that extends nothing.
fn is_alone(service: &Tree) -> bool
    ensures { IsTrue result → Alone service.now }
{
    match service {
        Tree::Map(entries) => entries.get().find("extends").is_none(),
        _ => false,
    }
}

/// What `extends` names.
fn extends_in(alloc: Global, tree: &Tree) -> Result<Option<Base>, Memory>
    ensures { IfOk result (λ base. base ≡ extends_in (out-Tree tree.now)) }
{
    match tree {
        Tree::Scalar(name) => base_of(alloc, None, Some(name)),
        Tree::Map(fields) => {
            let fields = fields.get();
            base_of(alloc, text_at(fields, "file"), text_at(fields, "service"))
        }
        _ => Ok(None),
    }
}

/// The base of a name, where there is one, in a file.
fn base_of(alloc: Global, file: Option<&Text>, name: Option<&Text>) -> Result<Option<Base>, Memory>
    ensures { IfOk result
        (λ base. base ≡ option_map (base_named (option_copied file.entry)) (option_copied name.entry)) }
{
    match name {
        None => Ok(None),
        Some(name) => {
            let file = copied(alloc, file)?;
            let service = name.copy(alloc)?;
            Ok(Some(Base { file, service }))
        }
    }
}

/// A text that may be there, copied.
fn copied(alloc: Global, text: Option<&Text>) -> Result<Option<Text>, Memory>
    ensures { IfOk result (λ copy. copy ≡ option_copied text.entry) }
{
    match text {
        None => Ok(None),
        Some(text) => Ok(Some(text.copy(alloc)?)),
    }
}

/// The service of this name in a file.
pub(crate) fn service_at(alloc: Global, file: &Text, name: &Text) -> Result<ServiceAt, Memory>
    ensures { IfOk result (λ at. at ≡ at_service file.now name.now) }
{
    Ok(ServiceAt {
        file: file.copy(alloc)?,
        service: name.copy(alloc)?,
    })
}

/// Whether two services are one.
pub(crate) fn is_at(one: &ServiceAt, other: &ServiceAt) -> bool
    ensures { result ≡ is_at one.now other.now }
{
    one.file == other.file && one.service == other.service
}
