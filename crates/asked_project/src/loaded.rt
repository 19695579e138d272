ghost use Rattle.std.specs.Prelude.{◌≡◌, IfErr, IfOk};
ghost use Rattle.active_services.specs.Profiles.{profiles_given};
ghost use Rattle.asked_project.specs.Meaning.{project_loaded, project_named, project_or_refused, with_origin};
ghost use Rattle.asked_project.specs.Parts.{IsOfProject};
ghost use Rattle.normal_form.specs.Projects.{project_of};
ghost use Rattle.refusals.specs.Refused.{wants_memory};
ghost use Rattle.typed_project.specs.DistinctNames.{IsKeyed};
ghost use Rattle.tree_base.specs.Answers.{Gives};

use active_services::profiles_given;
use compose_words::Options;
use declared_set::LoadedProject;
use include_extends::Loaded;
use normal_form::project_of;
use refusals::Refusal;
use std::alloc::Global;
use std::mem::forget;
use tree_base::{List, Memory, Text};
use typed_project::Project;

/// The project of what was loaded for options, with its files and its directory.
pub(crate) fn project_loaded(
    alloc: Global,
    options: &Options,
    loaded: Loaded,
) -> Result<LoadedProject, Refusal>
    ensures told { Gives wants_memory result (project_loaded options.now loaded) }
    ensures keyed { IfOk result (λ project. IsKeyed project.project) }
    ensures kind { IfErr result IsOfProject }
{
    let project = project_named(alloc, options, &loaded);
    with_origin(loaded, project)
}

/// A project with the files and the directory that were loaded.
fn with_origin(loaded: Loaded, project: Result<Project, Refusal>) -> Result<LoadedProject, Refusal>
    ensures { result ≡ with_origin loaded project }
{
    let Loaded {
        tree,
        directory,
        files,
        env,
    } = loaded;
    // A call loads once, and its memory goes with it: to give back what was loaded piece by piece takes a tenth of the time that
    // `config` takes.
    forget(tree);
    forget(env);
    match project {
        Ok(project) => Ok(LoadedProject {
            project,
            files,
            directory,
        }),
        Err(refusal) => {
            forget(files);
            forget(directory);
            Err(refusal)
        }
    }
}

/// The project of what was loaded for options: by the name of `-p`, and by the profiles of `--profile` and of the
/// variables.
fn project_named(alloc: Global, options: &Options, loaded: &Loaded) -> Result<Project, Refusal>
    ensures told { Gives wants_memory result (project_named options.now loaded.now) }
    ensures keyed { IfOk result IsKeyed }
    ensures kind { IfErr result IsOfProject }
{
    match profiles_given(alloc, &options.profiles, &loaded.env) {
        Ok(profiles) => {
            let made = project_by(alloc, options, &profiles, loaded);
            drop(profiles);
            made
        }
        Err(Memory) => Err(Refusal::Memory),
    }
}

/// The project of what was loaded, by the profiles of the call.
fn project_by(
    alloc: Global,
    options: &Options,
    profiles: &List<Text>,
    loaded: &Loaded,
) -> Result<Project, Refusal>
    ensures told { Gives wants_memory result (project_or_refused
        (project_of options.now.project profiles.now loaded.now)) }
    ensures keyed { IfOk result IsKeyed }
    ensures kind { IfErr result IsOfProject }
{
    match project_of(alloc, options.project.as_ref(), profiles, loaded) {
        Ok(project) => Ok(project),
        Err(refusal) => Err(Refusal::from(refusal)),
    }
}
