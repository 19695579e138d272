ghost use Rattle.std.specs.Prelude.{◌≡◌, IfOk, codes, map};
ghost use Rattle.tree_base.specs.declared.Tree.{out-Tree};
ghost use Rattle.attribute_scalars.specs.Views.{seen_entry};
ghost use Rattle.typed_project.specs.Projects.{IsInOrder};
ghost use Rattle.project_meaning.specs.Answers.{Gives};
ghost use Rattle.project_meaning.specs.Meaning.{all_declared, declarations, file_of, network_of, of_attributes, section, service_of, volume_of};
ghost use Rattle.project_meaning.specs.Parts.{asked_few, declared_by};

use crate::elements::elements_in;
use crate::files::files_declared;
use crate::networks::networks_declared;
use crate::refusing::refusal_of;
use crate::services::services_declared;
use crate::volumes::volumes_declared;
use attribute_scalars::{Entry, value_among};
use loading_words::{ProjectRefusal, TreeRefusal};
use std::alloc::Global;
use tree_base::limits::{GREATEST_PLACE, MOST_SERVICES};
use tree_base::{List, Map, Memory, Text, Tree};
use typed_project::{FileItem, Network, Project, Service, Volume};

/// What a tree declares under a project's name, each part by itself, or the first refusal: of the elements, then of networks,
/// volumes, secrets, configs, of the number of services, and of services.
pub(crate) fn declarations(alloc: Global, name: &Text, tree: &Tree) -> Result<Project, TreeRefusal>
    ensures value { Gives result (declarations name.now (out-Tree tree.now)) }
    ensures order { IfOk result (λ project. IsInOrder project.services) }
{
    match elements_in(alloc, tree) {
        Ok(elements) => declared_by(alloc, name, elements.as_slice()),
        Err(refusal) => Err(refusal_of(refusal)),
    }
}

/// What the top-level elements declare.
fn declared_by(alloc: Global, name: &Text, elements: &[Entry]) -> Result<Project, TreeRefusal>
    ensures value { Gives result (declared_by name.now (map seen_entry elements.now)) }
    ensures order { IfOk result (λ project. IsInOrder project.services) }
{
    let networks = networks_of(alloc, name, elements)?;
    let volumes = volumes_of(alloc, name, elements)?;
    let secrets = files_of(alloc, elements, "secrets")?;
    let configs = files_of(alloc, elements, "configs")?;
    ask_few(elements)?;
    let services = services_of(alloc, elements)?;
    let Ok(name) = name.copy(alloc) else {
        return Err(TreeRefusal::Memory);
    };
    Ok(Project {
        name,
        services,
        networks,
        volumes,
        secrets,
        configs,
    })
}

/// The networks that a project declares, in byte order of their keys, or the first that is refused.
fn networks_of(
    alloc: Global,
    project: &Text,
    elements: &[Entry],
) -> Result<List<Network>, TreeRefusal>
    ensures { Gives result (of_attributes (all_declared (network_of project.now)
        (map seen_entry elements.now) (codes "networks"))) }
{
    match networks_declared(alloc, project, elements) {
        Ok(list) => Ok(list),
        Err(refusal) => Err(refusal_of(refusal)),
    }
}

/// The volumes that a project declares, in byte order of their keys, or the first that is refused.
fn volumes_of(
    alloc: Global,
    project: &Text,
    elements: &[Entry],
) -> Result<List<Volume>, TreeRefusal>
    ensures { Gives result (of_attributes (all_declared (volume_of project.now)
        (map seen_entry elements.now) (codes "volumes"))) }
{
    match volumes_declared(alloc, project, elements) {
        Ok(list) => Ok(list),
        Err(refusal) => Err(refusal_of(refusal)),
    }
}

/// The secrets, or the configs, that a project declares, in byte order of their keys, or the first that is refused.
fn files_of(alloc: Global, elements: &[Entry], name: &str) -> Result<List<FileItem>, TreeRefusal>
    ensures { Gives result
        (of_attributes (all_declared file_of (map seen_entry elements.now) name.now)) }
{
    match files_declared(alloc, elements, name) {
        Ok(list) => Ok(list),
        Err(refusal) => Err(refusal_of(refusal)),
    }
}

/// The services that a project declares, in byte order of their keys, or the first that is refused.
fn services_of(alloc: Global, elements: &[Entry]) -> Result<List<Service>, TreeRefusal>
    ensures value { Gives result (of_attributes
        (all_declared service_of (map seen_entry elements.now) (codes "services"))) }
    ensures order { IfOk result (λ services. IsInOrder services) }
{
    match services_declared(alloc, elements) {
        Ok(list) => Ok(list),
        Err(refusal) => Err(refusal_of(refusal)),
    }
}

/// Asks how many services there are. No memory.
fn ask_few(elements: &[Entry]) -> Result<(), TreeRefusal>
    ensures { result ≡ asked_few (section (map seen_entry elements.now) (codes "services")) }
{
    match value_among(elements, "services") {
        Some(Tree::Map(entries)) => ask_count(entries.get()),
        _ => Ok(()),
    }
}

fn ask_count(entries: &Map) -> Result<(), TreeRefusal>
    ensures { result ≡ asked_few entries.now }
{
    let count = entries.len();
    if count > MOST_SERVICES {
        let count = count.min(GREATEST_PLACE) as u32;
        Err(TreeRefusal::Project(ProjectRefusal::TooManyServices { count }))
    } else {
        Ok(())
    }
}
