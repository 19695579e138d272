ghost use Rattle.std.specs.Prelude.{◌≡◌, ◌≤◌, ℕ, Err, List, Option};
ghost use Rattle.file_paths.specs.Resolving.{resolved};
ghost use Rattle.include_extends.specs.Merged.{merged_model, model_under, placed};
ghost use Rattle.loaded_files.specs.Reads.{Gives, IsGiven, WentAs};
ghost use Rattle.loaded_files.specs.Refusing.{of_path};
ghost use Rattle.loaded_files.specs.declared.refusal.LoadRefusal.{LoadRefusal};
ghost use Rattle.outside_files.specs.Counts.{Rose};
ghost use Rattle.outside_files.specs.Files.{Contents};

use file_paths::{PathRefusal, resolved};
use loaded_files::{LoadRefusal, Seen, environment, files_laid, shaped};
use outside_files::Files;
use std::alloc::Global;
use tree_base::{Env, List, Text, Tree};

/// A model that was loaded, with its variables, and how many files may still be read.
#[derive(Drop)]
pub struct Model {
    pub tree: Tree,
    pub env: Env,
    pub left: u32,
}

/// The model of these files in a directory, merged, the first of which may have been looked at before.
pub(crate) fn merged_model<F: Files>(
    alloc: Global,
    files: &mut F,
    paths: &[Text],
    directory: &Text,
    env_paths: &Option<List<Text>>,
    caller: &Env,
    found: Option<Seen>,
    left: u32,
) -> Result<Model, LoadRefusal>
    ensures given { Gives (F.told files.old) result
        (merged_model paths.now directory.now env_paths.now caller.now found left) }
    ensures fault { (at : List ℕ) → result ≡ Err (LoadRefusal.ReadFault at)
        → Rose (F.faults files.old) (F.faults files.new) }
    ensures reads { WentAs (F.reads files.old) (F.reads files.new) result }
    ensures counted { F.faults files.old ≤ F.faults files.new }
    ensures kept { F.told files.new ≡ F.told files.old }
{
    match environment(alloc, files, directory, env_paths, caller, left) {
        Ok((env, left)) => model_under(alloc, files, paths, directory, env, found, left),
        Err(refusal) => {
            drop(found);
            Err(refusal)
        }
    }
}

/// The model of these files under its variables.
fn model_under<F: Files>(
    alloc: Global,
    files: &mut F,
    paths: &[Text],
    directory: &Text,
    env: Env,
    found: Option<Seen>,
    left: u32,
) -> Result<Model, LoadRefusal>
    ensures given { Gives (F.told files.old) result
        (model_under paths.now directory.now env found left) }
    ensures fault { (at : List ℕ) → result ≡ Err (LoadRefusal.ReadFault at)
        → Rose (F.faults files.old) (F.faults files.new) }
    ensures reads { WentAs (F.reads files.old) (F.reads files.new) result }
    ensures counted { F.faults files.old ≤ F.faults files.new }
    ensures kept { F.told files.new ≡ F.told files.old }
{
    let (merged, left) = files_laid(alloc, files, &env, paths, found, left)?;
    let tree = placed(alloc, directory, &env, merged)?;
    Ok(Model { tree, env, left })
}

/// A merged tree with its shape asked and its paths taken against the model's directory.
fn placed(alloc: Global, directory: &Text, env: &Env, tree: Tree) -> Result<Tree, LoadRefusal>
    ensures given { (told : Option Contents)
        → Gives told result (placed directory.now env.now tree) }
    ensures fault { (at : List ℕ) → result ≡ Err (LoadRefusal.ReadFault at) → ⊥ }
{
    let tree = shaped(alloc, tree)?;
    with_paths(alloc, directory, env, tree)
}

/// A tree with its paths taken against the model's directory.
fn with_paths(alloc: Global, directory: &Text, env: &Env, tree: Tree) -> Result<Tree, LoadRefusal>
    ensures given { IsGiven result (of_path (resolved directory.now env.now tree)) }
    ensures fault { (at : List ℕ) → result ≡ Err (LoadRefusal.ReadFault at) → ⊥ }
{
    match resolved(alloc, directory, env, tree) {
        Ok(tree) => Ok(tree),
        Err(PathRefusal::NoHome { path }) => Err(LoadRefusal::NoHome { path }),
        Err(PathRefusal::Memory) => Err(LoadRefusal::Memory),
    }
}
