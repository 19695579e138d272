ghost use Rattle.std.specs.Prelude.{◌≡◌, IfOk};
ghost use Rattle.project_meaning.specs.Answers.{Gives};
ghost use Rattle.project_meaning.specs.Meaning.{project_of};
ghost use Rattle.typed_project.specs.DistinctNames.{IsKeyed};

use crate::own_keys::show_own_keys;
use loading_words::TreeRefusal;
use project_meaning::project_of;
use std::alloc::Global;
use tree_base::{Text, Tree};
use typed_project::Project;

/// The project that a merged tree means under a name, or the first refusal, as `project_of` of `project_meaning` says. What
/// it declares is in byte order of the keys, and its attributes have different names.
pub fn keyed_project(alloc: Global, name: &Text, tree: &Tree) -> Result<Project, TreeRefusal>
    ensures told { Gives result (project_of name.now tree.now) }
    ensures keyed { IfOk result IsKeyed }
{
    show_own_keys(tree);
    project_of(alloc, name, tree)
}
