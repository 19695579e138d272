ghost use Rattle.std.specs.Prelude.{◌≡◌, ◌≤◌, [], ℕ, Err, IfOk, List, OnOk, codes};
ghost use Rattle.file_paths.specs.Shapes.{entries_at, entries_in};
ghost use Rattle.loaded_files.specs.Reads.{Gives, WentAs};
ghost use Rattle.loaded_files.specs.declared.refusal.LoadRefusal.{LoadRefusal};
ghost use Rattle.outside_files.specs.Counts.{Rose};
ghost use Rattle.service_environments.specs.Environments.{all_with_environments, file_read, files_read, settings_over, with_environment, with_environments, with_values};
ghost use Rattle.tree_base.specs.Entries.{with_entry};
ghost use Rattle.tree_base.specs.declared.Tree.{Tree, out-Tree};

use crate::env_item::{EnvItem, items_of};
use crate::settings::{settings_over, with_values};
use loaded_files::{LoadRefusal, entries_at, names_of, with_file, with_file_if};
use outside_files::Files;
use std::alloc::Global;
use tree_base::{Env, Map, Memory, Text, TextMap, Tree};

/// Services with their environments under the variables of their model, and how many files may still be read. The
/// paths of their env files are taken already.
///
/// The refusals, by service in byte order, are those of its env files in order: `ReadFault`, `NotFound` unless the file
/// may be missing, `TooManyFiles`, `FileTooLarge` and `EnvFile`; and `Memory`.
pub fn with_environments<F: Files>(
    alloc: Global,
    files: &mut F,
    env: &Env,
    services: Map,
    left: u32,
) -> Result<(Map, u32), LoadRefusal>
    ensures given { Gives (F.told files.old) result
        (with_environments env.now services left) }
    ensures fault { (at : List ℕ) → result ≡ Err (LoadRefusal.ReadFault at)
        → Rose (F.faults files.old) (F.faults files.new) }
    ensures reads { WentAs (F.reads files.old) (F.reads files.new) result }
    ensures counted { F.faults files.old ≤ F.faults files.new }
    ensures kept { F.told files.new ≡ F.told files.old }
{
    let names = names_of(alloc, &services)?;
    all_with_environments(alloc, files, env, names.as_slice(), services, left)
}

/// The services of these names with their environments, put in their places.
fn all_with_environments<F: Files>(
    alloc: Global,
    files: &mut F,
    env: &Env,
    names: &[Text],
    services: Map,
    left: u32,
) -> Result<(Map, u32), LoadRefusal>
    ensures given { Gives (F.told files.old) result
        (all_with_environments env.now names.now services left) }
    ensures fault { (at : List ℕ) → result ≡ Err (LoadRefusal.ReadFault at)
        → Rose (F.faults files.old) (F.faults files.new) }
    ensures reads { WentAs (F.reads files.old) (F.reads files.new) result }
    ensures counted { F.faults files.old ≤ F.faults files.new }
    ensures kept { F.told files.new ≡ F.told files.old }
{
    let mut services = services;
    let mut left = left;
    for name in names {
        let service = take_attributes(alloc, &mut services, name)?;
        let (whole, rest) = with_environment(alloc, files, env, service, left)?;
        put_service(alloc, &mut services, name, whole)?;
        left = rest;
    }
    Ok((services, left))
}

/// Takes the attributes of a service out, and leaves null in its place; none where no mapping stands under its name.
fn take_attributes(alloc: Global, services: &mut Map, name: &Text) -> Result<Map, Memory>
    ensures attributes { IfOk result (λ found. found ≡ entries_at name.now services.old) }
    ensures rest { OnOk result (services.new ≡ with_entry services.old name.now Tree.Null) }
{
    match services.put(name.copy(alloc)?, Tree::Null)? {
        Some(service) => entries_of(alloc, service),
        None => Ok(TextMap::new(alloc)),
    }
}

/// The entries of a mapping, taken out; none where the tree is none.
fn entries_of(alloc: Global, tree: Tree) -> Result<Map, Memory>
    ensures { IfOk result (λ entries. entries ≡ entries_in (out-Tree tree)) }
{
    match tree {
        Tree::Map(entries) => entries.take(alloc),
        other => {
            drop(other);
            Ok(TextMap::new(alloc))
        }
    }
}

/// Puts a service in its place.
fn put_service(alloc: Global, services: &mut Map, name: &Text, service: Map) -> Result<(), Memory>
    ensures { OnOk result (services.new ≡ with_entry services.old name.now (Tree.Map service)) }
{
    let service = Tree::mapping(alloc, service)?;
    drop(services.put(name.copy(alloc)?, service)?);
    Ok(())
}

/// A service with its environment, and how many files may still be read.
fn with_environment<F: Files>(
    alloc: Global,
    files: &mut F,
    env: &Env,
    service: Map,
    left: u32,
) -> Result<(Map, u32), LoadRefusal>
    ensures given { Gives (F.told files.old) result (with_environment env.now service left) }
    ensures fault { (at : List ℕ) → result ≡ Err (LoadRefusal.ReadFault at)
        → Rose (F.faults files.old) (F.faults files.new) }
    ensures reads { WentAs (F.reads files.old) (F.reads files.new) result }
    ensures counted { F.faults files.old ≤ F.faults files.new }
    ensures kept { F.told files.new ≡ F.told files.old }
{
    let items = items_of(alloc, &service)?;
    let (values, left) = files_read(alloc, files, env, items.as_slice(), left)?;
    Ok((with_all_values(alloc, env, service, values)?, left))
}

/// A service with the values of its env files, and over them what it says itself, as its environment.
fn with_all_values(alloc: Global, env: &Env, service: Map, values: Env) -> Result<Map, Memory>
    ensures { IfOk result (λ all. all ≡ with_values service
        (settings_over env.now (entries_at (codes "environment") service) values)) }
{
    let entries = entries_at(alloc, &service, "environment")?;
    let all = settings_over(alloc, env, &entries, values)?;
    with_values(alloc, service, &all)
}

/// The values of env files, in order, and how many files may still be read.
fn files_read<F: Files>(
    alloc: Global,
    files: &mut F,
    env: &Env,
    items: &[EnvItem],
    left: u32,
) -> Result<(Env, u32), LoadRefusal>
    ensures given { Gives (F.told files.old) result (files_read env.now items.now [] left) }
    ensures fault { (at : List ℕ) → result ≡ Err (LoadRefusal.ReadFault at)
        → Rose (F.faults files.old) (F.faults files.new) }
    ensures reads { WentAs (F.reads files.old) (F.reads files.new) result }
    ensures counted { F.faults files.old ≤ F.faults files.new }
    ensures kept { F.told files.new ≡ F.told files.old }
{
    let mut values = Env::new(alloc);
    let mut left = left;
    for item in items {
        let (more, rest) = file_read(alloc, files, env, item, values, left)?;
        values = more;
        left = rest;
    }
    Ok((values, left))
}

/// The values of an env file over those of earlier ones, and how many files may still be read.
fn file_read<F: Files>(
    alloc: Global,
    files: &mut F,
    env: &Env,
    item: &EnvItem,
    earlier: Env,
    left: u32,
) -> Result<(Env, u32), LoadRefusal>
    ensures given { Gives (F.told files.old) result
        (file_read env.now item.now.path item.now.required earlier left) }
    ensures fault { (at : List ℕ) → result ≡ Err (LoadRefusal.ReadFault at)
        → Rose (F.faults files.old) (F.faults files.new) }
    ensures reads { WentAs (F.reads files.old) (F.reads files.new) result }
    ensures counted { F.faults files.old ≤ F.faults files.new }
    ensures kept { F.told files.new ≡ F.told files.old }
{
    if item.required {
        with_file(alloc, files, env, &item.path, earlier, left)
    } else {
        with_file_if(alloc, files, env, &item.path, earlier, left)
    }
}
