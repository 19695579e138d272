ghost use Rattle.std.specs.Prelude.{◌≡◌, Ok, OnOk};
ghost use Rattle.typed_project.specs.Projects.{IsInOrder};
ghost use Rattle.service_graph.specs.Cycles.{cycle};
ghost use Rattle.project_meaning.specs.Answers.{Gives, leaving};
ghost use Rattle.project_meaning.specs.Completing.{completed, used_by, without_circle};
ghost use Rattle.project_meaning.specs.Meaning.{project_of};
ghost use Rattle.project_meaning.specs.Parts.{with_settled};

use crate::declared::declarations;
use crate::keys::service_keys;
use crate::settled::settle_all;
use crate::undefined::ask_names;
use crate::used::keep_used;
use loading_words::{ProjectRefusal, TreeRefusal};
use service_graph::cycle;
use std::alloc::Global;
use std::mem;
use tree_base::{List, Memory, Text, Tree};
use typed_project::Project;

/// The project that a merged tree means under a name, or the first refusal, `Project` with a path: of the top-level elements,
/// then of networks, volumes, secrets, configs, the number of services, services, each in byte order of the keys. Then come
/// `Undefined`, for the first service that uses what isn't there, and `DependencyCycle`. `Memory` comes where memory was
/// wanted.
pub fn project_of(alloc: Global, name: &Text, tree: &Tree) -> Result<Project, TreeRefusal>
    ensures { Gives result (project_of name.now tree.now) }
{
    let mut project = declarations(alloc, name, tree)?;
    match complete(alloc, &mut project) {
        Ok(()) => Ok(project),
        Err(refusal) => {
            drop(project);
            Err(refusal)
        }
    }
}

/// Makes a project whole, whose parts are right by themselves, or refuses it.
fn complete(alloc: Global, project: &mut Project) -> Result<(), TreeRefusal>
    requires { IsInOrder project.old.services }
    ensures { Gives (leaving project.new result) (completed project.old) }
{
    ask_names(alloc, project)?;
    settle_services(alloc, project)?;
    ask_circle(alloc, project)?;
    leave_used(alloc, project)
}

/// Settles all services.
fn settle_services(alloc: Global, project: &mut Project) -> Result<(), TreeRefusal>
    ensures { Gives (leaving project.new result) (Ok (with_settled project.old)) }
{
    match settle(alloc, project) {
        Ok(()) => Ok(()),
        Err(Memory) => Err(TreeRefusal::Memory),
    }
}

#[tactic(auto, using(crate::proofs::Whole::all_settled))]
fn settle(alloc: Global, project: &mut Project) -> Result<(), Memory>
    ensures { OnOk result (project.new ≡ with_settled project.old) }
{
    let keys = service_keys(alloc, project.services.as_slice())?;
    let mut services = mem::replace(&mut project.services, List::new(alloc)).into_vec();
    settle_all(alloc, keys.as_slice(), &mut services)?;
    project.services = List::from_vec(services);
    Ok(())
}

/// Asks whether services need one another in a circle.
fn ask_circle(alloc: Global, project: &Project) -> Result<(), TreeRefusal>
    requires { IsInOrder project.now.services }
    ensures { Gives (leaving project.now.services result)
        (without_circle project.now.services (cycle project.now.services)) }
{
    match cycle(alloc, project) {
        Ok(None) => Ok(()),
        Ok(Some(services)) => Err(TreeRefusal::Project(ProjectRefusal::DependencyCycle {
            services,
        })),
        Err(Memory) => Err(TreeRefusal::Memory),
    }
}

/// Leaves what services use.
fn leave_used(alloc: Global, project: &mut Project) -> Result<(), TreeRefusal>
    ensures { Gives (leaving project.new result)
        (Ok (used_by project.old project.old.services)) }
{
    match keep_used(alloc, project) {
        Ok(()) => Ok(()),
        Err(Memory) => Err(TreeRefusal::Memory),
    }
}
