ghost use Rattle.std.specs.Prelude.{◌≡◌, ◌≤◌, ℕ, Err, List, Option};
ghost use Rattle.loaded_files.specs.FileTrees.{file_laid, files_laid, look_or, over_laid, shaped, tree_at};
ghost use Rattle.loaded_files.specs.Reads.{Gives, IsGiven, WentAs};
ghost use Rattle.loaded_files.specs.Refusing.{of_merge};
ghost use Rattle.loaded_files.specs.declared.refusal.LoadRefusal.{LoadRefusal};
ghost use Rattle.merge_rules.specs.UnderExtends.{file_over};
ghost use Rattle.outside_files.specs.Counts.{Rose};
ghost use Rattle.outside_files.specs.Files.{Contents};
ghost use Rattle.tree_base.specs.declared.Tree.{Null};

use crate::file_tree::file_tree;
use crate::reads::{Seen, look, taken};
use crate::refusal::LoadRefusal;
use file_paths::shape_fault;
use merge_rules::overlay_file;
use merge_tables::MergeRefusal;
use outside_files::Files;
use std::alloc::Global;
use tree_base::{Env, Memory, Text, Tree};

/// The files of a model, each laid over those before it, and how many files may still be read.
pub fn files_laid<F: Files>(
    alloc: Global,
    files: &mut F,
    env: &Env,
    paths: &[Text],
    found: Option<Seen>,
    left: u32,
) -> Result<(Tree, u32), LoadRefusal>
    ensures given { Gives (F.told files.old) result (files_laid env.now paths.now found Null left) }
    ensures fault { (at : List ℕ) → result ≡ Err (LoadRefusal.ReadFault at)
        → Rose (F.faults files.old) (F.faults files.new) }
    ensures reads { WentAs (F.reads files.old) (F.reads files.new) result }
    ensures counted { F.faults files.old ≤ F.faults files.new }
    ensures kept { F.told files.new ≡ F.told files.old }
{
    let mut tree = Tree::Null;
    let mut found = found;
    let mut left = left;
    for path in paths {
        let (laid, rest) = file_laid(alloc, files, env, path, found, tree, left)?;
        tree = laid;
        found = None;
        left = rest;
    }
    drop(found);
    Ok((tree, left))
}

/// A file read and laid over what the files before it gave, which is moved, and how many files may still be read.
pub fn file_laid<F: Files>(
    alloc: Global,
    files: &mut F,
    env: &Env,
    path: &Text,
    found: Option<Seen>,
    base: Tree,
    left: u32,
) -> Result<(Tree, u32), LoadRefusal>
    ensures given { Gives (F.told files.old) result (file_laid env.now path.now found base left) }
    ensures fault { (at : List ℕ) → result ≡ Err (LoadRefusal.ReadFault at)
        → Rose (F.faults files.old) (F.faults files.new) }
    ensures reads { WentAs (F.reads files.old) (F.reads files.new) result }
    ensures counted { F.faults files.old ≤ F.faults files.new }
    ensures kept { F.told files.new ≡ F.told files.old }
{
    match tree_at(alloc, files, env, path, found, left) {
        Ok((over, left)) => over_laid(alloc, path, base, over, left),
        Err(refusal) => {
            drop(base);
            Err(refusal)
        }
    }
}

/// A file's tree laid over what the files before it gave, and how many files may still be read.
fn over_laid(
    alloc: Global,
    path: &Text,
    base: Tree,
    over: Tree,
    left: u32,
) -> Result<(Tree, u32), LoadRefusal>
    ensures given { (told : Option Contents)
        → Gives told result (over_laid path.now base over left) }
    ensures fault { (at : List ℕ) → result ≡ Err (LoadRefusal.ReadFault at) → ⊥ }
{
    let tree = laid(alloc, path, base, &over)?;
    drop(over);
    Ok((tree, left))
}

/// The tree of a file that has to be there, and how many files may still be read.
fn tree_at<F: Files>(
    alloc: Global,
    files: &mut F,
    env: &Env,
    path: &Text,
    found: Option<Seen>,
    left: u32,
) -> Result<(Tree, u32), LoadRefusal>
    ensures given { Gives (F.told files.old) result (tree_at env.now path.now found left) }
    ensures fault { (at : List ℕ) → result ≡ Err (LoadRefusal.ReadFault at)
        → Rose (F.faults files.old) (F.faults files.new) }
    ensures reads { WentAs (F.reads files.old) (F.reads files.new) result }
    ensures counted { F.faults files.old ≤ F.faults files.new }
    ensures kept { F.told files.new ≡ F.told files.old }
{
    let seen = look_or(alloc, files, path, found)?;
    let (bytes, left) = taken(alloc, path, seen, left)?;
    Ok((file_tree(alloc, path, bytes.as_slice(), env)?, left))
}

/// What stands at a path, where it wasn't looked at before.
fn look_or<F: Files>(
    alloc: Global,
    files: &mut F,
    path: &Text,
    found: Option<Seen>,
) -> Result<Seen, LoadRefusal>
    ensures given { Gives (F.told files.old) result (look_or path.now found) }
    ensures fault { (at : List ℕ) → result ≡ Err (LoadRefusal.ReadFault at)
        → Rose (F.faults files.old) (F.faults files.new) }
    ensures reads { WentAs (F.reads files.old) (F.reads files.new) result }
    ensures counted { F.faults files.old ≤ F.faults files.new }
    ensures kept { F.told files.new ≡ F.told files.old }
{
    match found {
        Some(seen) => Ok(seen),
        None => look(alloc, files, path),
    }
}

/// A file's tree over what the files before it gave.
fn laid(alloc: Global, path: &Text, base: Tree, over: &Tree) -> Result<Tree, LoadRefusal>
    ensures given { IsGiven result (of_merge path.now (file_over base over.now)) }
    ensures fault { (at : List ℕ) → result ≡ Err (LoadRefusal.ReadFault at) → ⊥ }
{
    match overlay_file(alloc, base, over) {
        Ok(tree) => Ok(tree),
        Err(MergeRefusal::Memory) => Err(LoadRefusal::Memory),
        Err(cause) => Err(LoadRefusal::Merge {
            path: path.copy(alloc)?,
            cause,
        }),
    }
}

/// A tree whose shape is asked: `BadShape` with the path of its first part that has another form, and `Memory`.
pub fn shaped(alloc: Global, tree: Tree) -> Result<Tree, LoadRefusal>
    ensures given { IsGiven result (shaped tree) }
    ensures fault { (at : List ℕ) → result ≡ Err (LoadRefusal.ReadFault at) → ⊥ }
{
    match shape_fault(alloc, &tree) {
        Ok(None) => Ok(tree),
        Ok(Some(at)) => {
            drop(tree);
            Err(LoadRefusal::BadShape { at })
        }
        Err(Memory) => {
            drop(tree);
            Err(LoadRefusal::Memory)
        }
    }
}
