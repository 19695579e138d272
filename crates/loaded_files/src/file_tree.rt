ghost use Rattle.std.specs.Prelude.{◌≡◌, ℕ, Err, List, Option};
ghost use Rattle.loaded_files.specs.FileTrees.{file_tree, tree_in};
ghost use Rattle.loaded_files.specs.Refusing.{of_merge, of_subst, of_yaml};
ghost use Rattle.loaded_files.specs.Reads.{Gives, IsGiven};
ghost use Rattle.loaded_files.specs.declared.refusal.LoadRefusal.{LoadRefusal};
ghost use Rattle.interpolate.specs.Walking.{substituted_tree};
ghost use Rattle.long_forms.specs.LongForms.{long_forms};
ghost use Rattle.outside_files.specs.Files.{Contents};
ghost use Rattle.tree_base.specs.Entries.{value_at};
ghost use Rattle.yaml_lines.specs.Answers as yaml_answers;

use crate::refusal::LoadRefusal;
use interpolate::{SubstTreeRefusal, subst_tree};
use long_forms::long_forms;
use merge_tables::MergeRefusal;
use std::alloc::Global;
use tree_base::{Env, Text, Tree};
use yaml_lines::{YamlRefusal, scan};

/// The tree of a file, with the values of its scalars, in long forms.
pub(crate) fn file_tree(
    alloc: Global,
    path: &Text,
    bytes: &[u8],
    env: &Env,
) -> Result<Tree, LoadRefusal>
    ensures given { (told : Option Contents)
        → Gives told result (file_tree env.now path.now bytes.now) }
    ensures fault { (at : List ℕ) → result ≡ Err (LoadRefusal.ReadFault at) → ⊥ }
{
    let tree = tree_of(alloc, path, bytes)?;
    let valued = substituted(alloc, path, &tree, env)?;
    drop(tree);
    long(alloc, path, valued)
}

/// The tree that the bytes of a file spell.
fn tree_of(alloc: Global, path: &Text, bytes: &[u8]) -> Result<Tree, LoadRefusal>
    ensures given { IsGiven result (of_yaml path.now (tree_in bytes.now)) }
    ensures fault { (at : List ℕ) → result ≡ Err (LoadRefusal.ReadFault at) → ⊥ }
{
    match tree_in(alloc, bytes) {
        Ok(tree) => Ok(tree),
        Err(YamlRefusal::Memory) => Err(LoadRefusal::Memory),
        Err(cause) => Err(LoadRefusal::Yaml {
            path: path.copy(alloc)?,
            cause,
        }),
    }
}

fn tree_in(alloc: Global, bytes: &[u8]) -> Result<Tree, YamlRefusal>
    ensures { yaml_answers.Gives result (tree_in bytes.now) }
{
    let lines = scan(alloc, bytes, 0)?;
    yaml_tree::read(alloc, &lines)
}

/// A tree with the values of its scalars under variables.
fn substituted(alloc: Global, path: &Text, tree: &Tree, env: &Env) -> Result<Tree, LoadRefusal>
    ensures given { IsGiven result
        (of_subst path.now (substituted_tree (value_at env.now) tree.now)) }
    ensures fault { (at : List ℕ) → result ≡ Err (LoadRefusal.ReadFault at) → ⊥ }
{
    match subst_tree(alloc, tree, env) {
        Ok(tree) => Ok(tree),
        Err(SubstTreeRefusal::Memory) => Err(LoadRefusal::Memory),
        Err(cause) => Err(LoadRefusal::Subst {
            path: path.copy(alloc)?,
            cause,
        }),
    }
}

/// A tree in long forms.
fn long(alloc: Global, path: &Text, tree: Tree) -> Result<Tree, LoadRefusal>
    ensures given { IsGiven result (of_merge path.now (long_forms tree)) }
    ensures fault { (at : List ℕ) → result ≡ Err (LoadRefusal.ReadFault at) → ⊥ }
{
    match long_forms(alloc, tree) {
        Ok(tree) => Ok(tree),
        Err(MergeRefusal::Memory) => Err(LoadRefusal::Memory),
        Err(cause) => Err(LoadRefusal::Merge {
            path: path.copy(alloc)?,
            cause,
        }),
    }
}
