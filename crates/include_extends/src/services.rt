ghost use Rattle.std.specs.Prelude.{◌≡◌, ◌≤◌, ℕ, Err, IfOk, List, OnOk, Some, codes};
ghost use Rattle.std.specs.Option.{option_copied};
ghost use Rattle.include_extends.specs.Services.{bounded, elements_loaded, mapping_of, services_loaded, services_of, services_under, tree_loaded, with_services};
ghost use Rattle.loaded_files.specs.Reads.{Gives, IsGiven, WentAs};
ghost use Rattle.loaded_files.specs.declared.refusal.LoadRefusal.{LoadRefusal};
ghost use Rattle.outside_files.specs.Counts.{Rose};
ghost use Rattle.tree_base.specs.Entries.{with_entry};
ghost use Rattle.tree_base.specs.declared.Tree.{Tree, out-Tree};

use crate::model::Model;
use loaded_files::LoadRefusal;
use merge_tables::{MergeRefusal, within};
use outside_files::Files;
use service_bases::services_extended;
use service_environments::with_environments;
use std::alloc::Global;
use tree_base::{Env, Map, Memory, Text, Tree};

/// A model with its services over all that they extend and with their environments, where this is its first file.
pub(crate) fn with_services<F: Files>(
    alloc: Global,
    files: &mut F,
    file: &Text,
    own: Model,
) -> Result<Model, LoadRefusal>
    ensures given { Gives (F.told files.old) result (with_services file.now own) }
    ensures fault { (at : List ℕ) → result ≡ Err (LoadRefusal.ReadFault at)
        → Rose (F.faults files.old) (F.faults files.new) }
    ensures reads { WentAs (F.reads files.old) (F.reads files.new) result }
    ensures counted { F.faults files.old ≤ F.faults files.new }
    ensures kept { F.told files.new ≡ F.told files.old }
{
    let Model { tree, env, left } = own;
    let (tree, left) = tree_loaded(alloc, files, &env, file, tree, left)?;
    Ok(Model { tree, env, left })
}

/// A tree with its services loaded, and how many files may still be read; null stays.
fn tree_loaded<F: Files>(
    alloc: Global,
    files: &mut F,
    env: &Env,
    file: &Text,
    tree: Tree,
    left: u32,
) -> Result<(Tree, u32), LoadRefusal>
    ensures given { Gives (F.told files.old) result
        (tree_loaded env.now file.now tree left (out-Tree tree)) }
    ensures fault { (at : List ℕ) → result ≡ Err (LoadRefusal.ReadFault at)
        → Rose (F.faults files.old) (F.faults files.new) }
    ensures reads { WentAs (F.reads files.old) (F.reads files.new) result }
    ensures counted { F.faults files.old ≤ F.faults files.new }
    ensures kept { F.told files.new ≡ F.told files.old }
{
    match tree {
        Tree::Map(top) => {
            let top = top.take(alloc)?;
            elements_loaded(alloc, files, env, file, top, left)
        }
        other => Ok((other, left)),
    }
}

/// Elements with their services loaded, within the limits, and how many files may still be read.
fn elements_loaded<F: Files>(
    alloc: Global,
    files: &mut F,
    env: &Env,
    file: &Text,
    top: Map,
    left: u32,
) -> Result<(Tree, u32), LoadRefusal>
    ensures given { Gives (F.told files.old) result
        (elements_loaded env.now file.now top left) }
    ensures fault { (at : List ℕ) → result ≡ Err (LoadRefusal.ReadFault at)
        → Rose (F.faults files.old) (F.faults files.new) }
    ensures reads { WentAs (F.reads files.old) (F.reads files.new) result }
    ensures counted { F.faults files.old ≤ F.faults files.new }
    ensures kept { F.told files.new ≡ F.told files.old }
{
    let (all, left) = services_under(alloc, files, env, file, top, left)?;
    let tree = Tree::mapping(alloc, all)?;
    Ok((bounded(alloc, file, tree)?, left))
}

/// Elements with their services loaded, where they have any, and how many files may still be read.
fn services_under<F: Files>(
    alloc: Global,
    files: &mut F,
    env: &Env,
    file: &Text,
    top: Map,
    left: u32,
) -> Result<(Map, u32), LoadRefusal>
    ensures given { Gives (F.told files.old) result (services_under env.now file.now top left
        (services_of top)) }
    ensures fault { (at : List ℕ) → result ≡ Err (LoadRefusal.ReadFault at)
        → Rose (F.faults files.old) (F.faults files.new) }
    ensures reads { WentAs (F.reads files.old) (F.reads files.new) result }
    ensures counted { F.faults files.old ≤ F.faults files.new }
    ensures kept { F.told files.new ≡ F.told files.old }
{
    match services_of(&top) {
        Some(_) => {
            let mut top = top;
            let services = take_services(alloc, &mut top)?;
            let (all, left) = services_loaded(alloc, files, env, file, services, left)?;
            Ok((put_services(alloc, top, all)?, left))
        }
        None => Ok((top, left)),
    }
}

/// Takes out what stands at `services`, where it is a mapping: null stands there then.
fn take_services(alloc: Global, top: &mut Map) -> Result<Map, Memory>
    ensures services { IfOk result (λ services. (found : _)
        → services_of top.old ≡ Some found → services ≡ found) }
    ensures rest { OnOk result (top.new ≡ with_entry top.old (codes "services") Tree.Null) }
{
    let key = Text::from_str(alloc, "services")?;
    match top.put(key, Tree::Null)? {
        Some(Tree::Map(services)) => services.take(alloc),
        other => {
            drop(other);
            Ok(Map::new(alloc))
        }
    }
}

/// What stands at `services`, where it is a mapping. No memory.
fn services_of(top: &Map) -> Option<&Map>
    ensures { option_copied result ≡ services_of top.now }
{
    match top.find("services") {
        Some(tree) => mapping_of(tree),
        None => None,
    }
}

/// The entries of a mapping; None exactly where the tree is none. No memory.
fn mapping_of(tree: &Tree) -> Option<&Map>
    ensures { option_copied result ≡ mapping_of (out-Tree tree.now) }
{
    match tree {
        Tree::Map(entries) => Some(entries.get()),
        _ => None,
    }
}

/// Services over all that they extend, and then with their environments, and how many files may still be read.
fn services_loaded<F: Files>(
    alloc: Global,
    files: &mut F,
    env: &Env,
    file: &Text,
    services: Map,
    left: u32,
) -> Result<(Map, u32), LoadRefusal>
    ensures given { Gives (F.told files.old) result
        (services_loaded env.now file.now services left) }
    ensures fault { (at : List ℕ) → result ≡ Err (LoadRefusal.ReadFault at)
        → Rose (F.faults files.old) (F.faults files.new) }
    ensures reads { WentAs (F.reads files.old) (F.reads files.new) result }
    ensures counted { F.faults files.old ≤ F.faults files.new }
    ensures kept { F.told files.new ≡ F.told files.old }
{
    let (extended, left) = services_extended(alloc, files, env, file, services, left)?;
    with_environments(alloc, files, env, extended, left)
}

/// Elements with these services.
fn put_services(alloc: Global, top: Map, services: Map) -> Result<Map, Memory>
    ensures { IfOk result
        (λ all. all ≡ with_entry top (codes "services") (Tree.Map services)) }
{
    let mut all = top;
    let key = Text::from_str(alloc, "services")?;
    drop(all.put(key, Tree::mapping(alloc, services)?)?);
    Ok(all)
}

/// A tree within the limits of merged trees, else the refusal of a file.
pub(crate) fn bounded(alloc: Global, file: &Text, tree: Tree) -> Result<Tree, LoadRefusal>
    ensures given { IsGiven result (bounded file.now tree) }
    ensures fault { (at : List ℕ) → result ≡ Err (LoadRefusal.ReadFault at) → ⊥ }
{
    match within(tree) {
        Ok(tree) => Ok(tree),
        Err(MergeRefusal::Memory) => Err(LoadRefusal::Memory),
        Err(cause) => Err(LoadRefusal::Merge {
            path: file.copy(alloc)?,
            cause,
        }),
    }
}
