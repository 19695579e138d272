ghost use Rattle.std.specs.Prelude.{◌≡◌, IfOk};
ghost use Rattle.std.specs.Option.{option_copied};
ghost use Rattle.active_services.specs.Profiles.{active};
ghost use Rattle.project_meaning.specs.Answers.{Gives};
ghost use Rattle.normal_form.specs.Projects.{active_or_refused, project_among, project_of};
ghost use Rattle.typed_project.specs.DistinctNames.{IsKeyed};

use crate::name::project_name;
use active_services::{ActiveRefusal, keep_active};
use loaded_files::Loaded;
use loading_words::TreeRefusal;
use project_keys::keyed_project;
use std::alloc::Global;
use tree_base::{List, Text, Tree};
use typed_project::Project;

/// The project of what was loaded, by the name of the option `-p` and by the call's profiles. The refusals, in their
/// order: `Name(BadName)` where there is no name, or none that is one; `Active(DependencyDisabled)` where an active
/// service requires one that isn't; `Project` for what the tree declares wrongly. `Memory` comes where memory was
/// wanted.
pub fn project_of(
    alloc: Global,
    option: Option<&Text>,
    profiles: &List<Text>,
    loaded: &Loaded,
) -> Result<Project, TreeRefusal>
    ensures told { Gives result
        (project_of (option_copied option.entry) profiles.now loaded.now) }
    ensures keyed { IfOk result IsKeyed }
{
    let name = project_name(alloc, option, loaded)?;
    let made = project_among(alloc, profiles, &loaded.tree, &name);
    drop(name);
    made
}

/// The project of the active services of a tree, under a name.
fn project_among(
    alloc: Global,
    profiles: &List<Text>,
    tree: &Tree,
    name: &Text,
) -> Result<Project, TreeRefusal>
    ensures told { Gives result (project_among profiles.now tree.now name.now) }
    ensures keyed { IfOk result IsKeyed }
{
    match active_tree(alloc, profiles, tree) {
        Ok(kept) => {
            let made = keyed_project(alloc, name, &kept);
            drop(kept);
            made
        }
        Err(refusal) => Err(refusal),
    }
}

/// A tree with its active services.
fn active_tree(alloc: Global, profiles: &List<Text>, tree: &Tree) -> Result<Tree, TreeRefusal>
    ensures { Gives result (active_or_refused (active profiles.now tree.now)) }
{
    let Ok(tree) = tree.copy(alloc) else {
        return Err(TreeRefusal::Memory);
    };
    match keep_active(alloc, tree, profiles) {
        Ok(tree) => Ok(tree),
        Err(ActiveRefusal::Memory) => Err(TreeRefusal::Memory),
        Err(refusal) => Err(TreeRefusal::Active(refusal)),
    }
}
