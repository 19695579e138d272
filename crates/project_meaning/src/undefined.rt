ghost use Rattle.std.specs.Prelude.{◌≡◌, IfOk, map};
ghost use Rattle.loaded_files.specs.declared.refusal.Kind.{Kind};
ghost use Rattle.loading_words.specs.declared.refusal.ProjectRefusal.{ProjectRefusal};
ghost use Rattle.project_meaning.specs.Answers.{Gives, unless_refused};
ghost use Rattle.project_meaning.specs.Completing.{undefined_of};
ghost use Rattle.project_meaning.specs.Names.{AreInOrder, keys_as, undefined_among, undefined_of_kind};
ghost use Rattle.service_graph.specs.Cycles.{first_of};

use crate::keys::{Keys, keys_of};
use crate::names::{first_missing, named};
use loaded_files::Kind;
use loading_words::{ProjectRefusal, TreeRefusal};
use std::alloc::Global;
use tree_base::{Memory, Text};
use typed_project::{Project, Service};

/// The kinds of names that a service uses, in the order in which they are asked.
const KINDS: [Kind; 5] = [
    Kind::Network,
    Kind::Volume,
    Kind::Service,
    Kind::Secret,
    Kind::Config,
];

/// Asks whether all names that services use are there: of networks, volumes, services, secrets and configs.
pub(crate) fn ask_names(alloc: Global, project: &Project) -> Result<(), TreeRefusal>
    ensures { Gives result (unless_refused (undefined_of project.now) tt) }
{
    match undefined_of(alloc, project) {
        Ok(None) => Ok(()),
        Ok(Some(refusal)) => Err(TreeRefusal::Project(refusal)),
        Err(Memory) => Err(TreeRefusal::Memory),
    }
}

/// The first name that a service uses and that isn't there, of all services in their order.
fn undefined_of(alloc: Global, project: &Project) -> Result<Option<ProjectRefusal>, Memory>
    ensures { IfOk result (λ found. found ≡ undefined_of project.now) }
{
    let keys = keys_of(alloc, project)?;
    first_undefined(alloc, &keys, project.services.as_slice())
}

fn first_undefined(
    alloc: Global,
    keys: &Keys,
    services: &[Service],
) -> Result<Option<ProjectRefusal>, Memory>
    requires { (kind : Kind) → AreInOrder (keys_as kind keys.now) }
    ensures { IfOk result (λ found.
        found ≡ first_of (map (undefined_among keys.now) services.now)) }
{
    for service in services {
        if let Some(refusal) = undefined_in(alloc, keys, service)? {
            return Ok(Some(refusal));
        }
    }
    Ok(None)
}

/// The first name that a service uses and that isn't there, by kinds.
fn undefined_in(
    alloc: Global,
    keys: &Keys,
    service: &Service,
) -> Result<Option<ProjectRefusal>, Memory>
    requires { (kind : Kind) → AreInOrder (keys_as kind keys.now) }
    ensures { IfOk result (λ found. found ≡ undefined_among keys.now service.now) }
{
    for kind in &KINDS {
        if let Some(refusal) = undefined_of_kind(alloc, keys, service, *kind)? {
            return Ok(Some(refusal));
        }
    }
    Ok(None)
}

/// The least name of a kind that a service uses and that isn't there.
fn undefined_of_kind(
    alloc: Global,
    keys: &Keys,
    service: &Service,
    kind: Kind,
) -> Result<Option<ProjectRefusal>, Memory>
    requires { AreInOrder (keys_as kind keys.now) }
    ensures { IfOk result (λ found. found ≡ undefined_of_kind keys.now service.now kind) }
{
    let names = named(alloc, kind, service)?;
    match first_missing(keys.of(kind), names.as_slice()) {
        Some(name) => Ok(Some(undefined(alloc, kind, &service.key, name)?)),
        None => Ok(None),
    }
}

fn undefined(
    alloc: Global,
    kind: Kind,
    service: &Text,
    name: &Text,
) -> Result<ProjectRefusal, Memory>
    ensures { IfOk result (λ refusal.
        refusal ≡ ProjectRefusal.Undefined kind service.now name.now) }
{
    let service = service.copy(alloc)?;
    let name = name.copy(alloc)?;
    Ok(ProjectRefusal::Undefined {
        kind,
        service,
        name,
    })
}
