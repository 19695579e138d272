ghost use Rattle.std.specs.Prelude.{◌≡◌, ◌≤◌, ℕ, Err, List, OnOk, suc};
ghost use Rattle.loaded_files.specs.Reads.{Gives, WentAs};
ghost use Rattle.loaded_files.specs.declared.refusal.LoadRefusal.{LoadRefusal};
ghost use Rattle.outside_files.specs.Counts.{Rose};
ghost use Rattle.service_bases.specs.Extending.{all_extended, chain_over, extended, goes_on, services_extended};
ghost use Rattle.service_bases.specs.Known.{AreWhole};
ghost use Rattle.tree_base.specs.Entries.{with_entry};
ghost use Rattle.tree_base.specs.declared.Tree.{Tree};

use crate::base::extend_nothing;
use crate::chain::{Chain, Layer, chain_in};
use crate::known::{Whole, extended_here};
use crate::laid::laid_up;
use crate::source::{Source, base_file};
use loaded_files::{LoadRefusal, ServiceAt, names_of};
use outside_files::Files;
use std::alloc::Global;
use tree_base::{Env, List, Map, Memory, Text, TextMap, Tree, TryCopy};

/// The services of a model over all that they extend, and how many files may still be read. Where none extends
/// anything, they are shared as they are. Their own paths are taken
/// already; `file` is the model's first file, as which they are named.
///
/// The refusals, by service in byte order, are those of its chain from the service on: `NoSuchBase` for a service that
/// isn't there, `NoHome` for the first of its paths, `ExtendsCycle` where its base is in the chain already, and, for a
/// base in another file, what is refused of that file and of its shape; then those of laying the chain, from its end
/// up.
pub fn services_extended<F: Files>(
    alloc: Global,
    files: &mut F,
    env: &Env,
    file: &Text,
    services: Map,
    left: u32,
) -> Result<(Map, u32), LoadRefusal>
    ensures given { Gives (F.told files.old) result
        (services_extended env.now file.now services left) }
    ensures fault { (at : List ℕ) → result ≡ Err (LoadRefusal.ReadFault at)
        → Rose (F.faults files.old) (F.faults files.new) }
    ensures reads { WentAs (F.reads files.old) (F.reads files.new) result }
    ensures counted { F.faults files.old ≤ F.faults files.new }
    ensures kept { F.told files.new ≡ F.told files.old }
{
    if extend_nothing(&services) {
        Ok((services, left))
    } else {
        over_bases(alloc, files, env, file, &services, left)
    }
}

/// The services of a model over all that they extend, where some extend others.
fn over_bases<F: Files>(
    alloc: Global,
    files: &mut F,
    env: &Env,
    file: &Text,
    services: &Map,
    left: u32,
) -> Result<(Map, u32), LoadRefusal>
    ensures given { Gives (F.told files.old) result
        (services_extended env.now file.now services.now left) }
    ensures fault { (at : List ℕ) → result ≡ Err (LoadRefusal.ReadFault at)
        → Rose (F.faults files.old) (F.faults files.new) }
    ensures reads { WentAs (F.reads files.old) (F.reads files.new) result }
    ensures counted { F.faults files.old ≤ F.faults files.new }
    ensures kept { F.told files.new ≡ F.told files.old }
{
    let names = names_of(alloc, services)?;
    let source = Source {
        file: file.copy(alloc)?,
        directory: None,
        services: services.copy(alloc)?,
    };
    let places = services.copy(alloc)?;
    all_extended(alloc, files, env, &source, names.as_slice(), places, left)
}

/// The services of these names over all that they extend, put in their places, and how many files may still be read.
fn all_extended<F: Files>(
    alloc: Global,
    files: &mut F,
    env: &Env,
    source: &Source,
    names: &[Text],
    services: Map,
    left: u32,
) -> Result<(Map, u32), LoadRefusal>
    ensures given { Gives (F.told files.old) result
        (all_extended env.now source.now names.now services left) }
    ensures fault { (at : List ℕ) → result ≡ Err (LoadRefusal.ReadFault at)
        → Rose (F.faults files.old) (F.faults files.new) }
    ensures reads { WentAs (F.reads files.old) (F.reads files.new) result }
    ensures counted { F.faults files.old ≤ F.faults files.new }
    ensures kept { F.told files.new ≡ F.told files.old }
{
    let mut services = services;
    let mut left = left;
    let mut known = TextMap::new(alloc);
    for name in names {
        let (service, rest) = extended_once(alloc, files, env, source, &mut known, name, left)?;
        put_service(alloc, &mut services, name, service)?;
        left = rest;
    }
    Ok((services, left))
}

/// Puts a service in its place.
fn put_service(alloc: Global, services: &mut Map, name: &Text, service: Map) -> Result<(), Memory>
    ensures { OnOk result (services.new ≡ with_entry services.old name.now (Tree.Map service)) }
{
    let service = Tree::mapping(alloc, service)?;
    drop(services.put(name.copy(alloc)?, service)?);
    Ok(())
}

/// A service over all that it extends, and how many files may still be read. What is known of its chain isn't made again.
fn extended_once<F: Files>(
    alloc: Global,
    files: &mut F,
    env: &Env,
    source: &Source,
    known: &mut TextMap<Whole>,
    name: &Text,
    left: u32,
) -> Result<(Map, u32), LoadRefusal>
    requires { AreWhole env.now source.now known.old }
    ensures known { OnOk result (AreWhole env.now source.now known.new) }
    ensures given { Gives (F.told files.old) result
        (extended env.now source.now name.now left) }
    ensures fault { (at : List ℕ) → result ≡ Err (LoadRefusal.ReadFault at)
        → Rose (F.faults files.old) (F.faults files.new) }
    ensures reads { WentAs (F.reads files.old) (F.reads files.new) result }
    ensures counted { F.faults files.old ≤ F.faults files.new }
    ensures kept { F.told files.new ≡ F.told files.old }
{
    match extended_here(alloc, env, source, known, name)? {
        Some(service) => Ok((service, left)),
        None => extended(alloc, files, env, source, name, left),
    }
}

/// A service over all that it extends, and how many files may still be read.
fn extended<F: Files>(
    alloc: Global,
    files: &mut F,
    env: &Env,
    source: &Source,
    name: &Text,
    left: u32,
) -> Result<(Map, u32), LoadRefusal>
    ensures given { Gives (F.told files.old) result
        (extended env.now source.now name.now left) }
    ensures fault { (at : List ℕ) → result ≡ Err (LoadRefusal.ReadFault at)
        → Rose (F.faults files.old) (F.faults files.new) }
    ensures reads { WentAs (F.reads files.old) (F.reads files.new) result }
    ensures counted { F.faults files.old ≤ F.faults files.new }
    ensures kept { F.told files.new ≡ F.told files.old }
{
    let (layers, rest) = chain_over(
        alloc,
        files,
        env,
        left,
        source,
        name,
        List::new(alloc),
        left,
    )?;
    Ok((laid_up(alloc, layers)?, rest))
}

/// The whole chain behind its layers, from the service of this name in a source on, over so many further files at
/// most, and how many files may still be read.
#[cycle(chain_over)]
fn chain_over<F: Files>(
    alloc: Global,
    files: &mut F,
    env: &Env,
    further: u32,
    source: &Source,
    name: &Text,
    layers: List<Layer>,
    left: u32,
) -> Result<(List<Layer>, u32), LoadRefusal>
    ensures given { Gives (F.told files.old) result
        (chain_over (suc further) env.now source.now name.now layers left) }
    ensures fault { (at : List ℕ) → result ≡ Err (LoadRefusal.ReadFault at)
        → Rose (F.faults files.old) (F.faults files.new) }
    ensures reads { WentAs (F.reads files.old) (F.reads files.new) result }
    ensures counted { F.faults files.old ≤ F.faults files.new }
    ensures kept { F.told files.new ≡ F.told files.old }
{
    let Chain { layers, next } = chain_in(alloc, env, source, name, layers)?;
    match next {
        None => Ok((layers, left)),
        Some(at) => goes_on(alloc, files, env, further, at, layers, left),
    }
}

/// The whole chain behind its layers, from a service in a file that isn't read yet on.
#[cycle(chain_over)]
fn goes_on<F: Files>(
    alloc: Global,
    files: &mut F,
    env: &Env,
    further: u32,
    at: ServiceAt,
    layers: List<Layer>,
    left: u32,
) -> Result<(List<Layer>, u32), LoadRefusal>
    ensures given { Gives (F.told files.old) result
        (goes_on env.now (chain_over further env.now) layers left at) }
    ensures fault { (at : List ℕ) → result ≡ Err (LoadRefusal.ReadFault at)
        → Rose (F.faults files.old) (F.faults files.new) }
    ensures reads { WentAs (F.reads files.old) (F.reads files.new) result }
    ensures counted { F.faults files.old ≤ F.faults files.new }
    ensures kept { F.told files.new ≡ F.told files.old }
{
    let (source, left) = base_file(alloc, files, env, &at.file, left)?;
    if further == 0 {
        drop(layers);
        return Err(LoadRefusal::TooManyFiles { path: source.file });
    }
    chain_over(
        alloc,
        files,
        env,
        further - 1,
        &source,
        &at.service,
        layers,
        left,
    )
}
