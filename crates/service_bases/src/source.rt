ghost use Rattle.std.specs.Prelude.{◌≡◌, ◌≤◌, ℕ, Err, IfOk, List, codes};
ghost use Rattle.loaded_files.specs.Reads.{Gives, IsGiven, WentAs};
ghost use Rattle.loaded_files.specs.Refusing.{of_path};
ghost use Rattle.loaded_files.specs.declared.refusal.LoadRefusal.{LoadRefusal};
ghost use Rattle.file_paths.specs.Resolving.{resolved_service};
ghost use Rattle.file_paths.specs.Shapes.{entries_at, entries_in};
ghost use Rattle.outside_files.specs.Counts.{Rose};
ghost use Rattle.service_bases.specs.Bases.{base_source, placed_service, service_in};
ghost use Rattle.service_bases.specs.Extending.{base_file};
ghost use Rattle.tree_base.specs.declared.Tree.{out-Tree};

use file_paths::{PathRefusal, directory_of, resolved_service};
use loaded_files::{LoadRefusal, entries_at, entries_in, file_laid, shaped};
use outside_files::Files;
use std::alloc::Global;
use tree_base::{Env, Map, Memory, Text, TextMap, Tree};

/// The services of a file. Where their paths aren't taken yet, they have a directory against which they are.
#[derive(Drop)]
pub struct Source {
    pub file: Text,
    pub directory: Option<Text>,
    pub services: Map,
}

/// The service of a source under a name, copied, with its paths taken.
pub(crate) fn service_in(
    alloc: Global,
    env: &Env,
    source: &Source,
    name: &Text,
) -> Result<Map, LoadRefusal>
    ensures given { IsGiven result (service_in env.now source.now name.now) }
    ensures fault { (at : List ℕ) → result ≡ Err (LoadRefusal.ReadFault at) → ⊥ }
{
    match source.services.get(name) {
        Some(service) => placed_service(alloc, env, &source.directory, service),
        None => Err(LoadRefusal::NoSuchBase {
            file: source.file.copy(alloc)?,
            service: name.copy(alloc)?,
        }),
    }
}

/// The attributes of a service with their paths taken, where they aren't yet.
fn placed_service(
    alloc: Global,
    env: &Env,
    directory: &Option<Text>,
    service: &Tree,
) -> Result<Map, LoadRefusal>
    ensures given { IsGiven result (placed_service env.now directory.now service.now) }
    ensures fault { (at : List ℕ) → result ≡ Err (LoadRefusal.ReadFault at) → ⊥ }
{
    match directory {
        None => Ok(entries_in(alloc, service)?),
        Some(directory) => {
            let placed = with_paths(alloc, directory, env, service.copy(alloc)?)?;
            Ok(entries_in(alloc, &placed)?)
        }
    }
}

/// A service with its paths taken against a directory.
fn with_paths(
    alloc: Global,
    directory: &Text,
    env: &Env,
    service: Tree,
) -> Result<Tree, LoadRefusal>
    ensures given { IsGiven result
        (of_path (resolved_service directory.now env.now service)) }
    ensures fault { (at : List ℕ) → result ≡ Err (LoadRefusal.ReadFault at) → ⊥ }
{
    match resolved_service(alloc, directory, env, service) {
        Ok(placed) => Ok(placed),
        Err(PathRefusal::NoHome { path }) => Err(LoadRefusal::NoHome { path }),
        Err(PathRefusal::Memory) => Err(LoadRefusal::Memory),
    }
}

/// A file that `extends` names, and how many files may still be read.
pub(crate) fn base_file<F: Files>(
    alloc: Global,
    files: &mut F,
    env: &Env,
    path: &Text,
    left: u32,
) -> Result<(Source, u32), LoadRefusal>
    ensures given { Gives (F.told files.old) result (base_file env.now path.now left) }
    ensures fault { (at : List ℕ) → result ≡ Err (LoadRefusal.ReadFault at)
        → Rose (F.faults files.old) (F.faults files.new) }
    ensures reads { WentAs (F.reads files.old) (F.reads files.new) result }
    ensures counted { F.faults files.old ≤ F.faults files.new }
    ensures kept { F.told files.new ≡ F.told files.old }
{
    let (tree, left) = file_laid(alloc, files, env, path, None, Tree::Null, left)?;
    let whole = shaped(alloc, tree)?;
    Ok((base_source(alloc, path, &whole)?, left))
}

/// The services of a file that `extends` names.
fn base_source(alloc: Global, path: &Text, tree: &Tree) -> Result<Source, Memory>
    ensures { IfOk result (λ source. source ≡ base_source path.now tree.now) }
{
    let services = services_in(alloc, tree)?;
    let directory = Some(directory_of(alloc, path)?);
    let file = path.copy(alloc)?;
    Ok(Source {
        file,
        directory,
        services,
    })
}

/// The services of a file, copied.
fn services_in(alloc: Global, tree: &Tree) -> Result<Map, Memory>
    ensures { IfOk result (λ services.
        services ≡ entries_at (codes "services") (entries_in (out-Tree tree.now))) }
{
    match tree {
        Tree::Map(entries) => entries_at(alloc, entries.get(), "services"),
        _ => Ok(TextMap::new(alloc)),
    }
}
