ghost use Rattle.std.specs.Prelude.{◌≡◌, ◌++◌, ◌∷◌, [], ℕ, Err, IfOk, List, Ok, length, position};
ghost use Rattle.loaded_files.specs.Reads.{IsGiven};
ghost use Rattle.loaded_files.specs.declared.refusal.LoadRefusal.{LoadRefusal};
ghost use Rattle.service_bases.specs.Bases.{is_at};
ghost use Rattle.service_bases.specs.Chains.{chain_in, followed, further, layer_for, met_from, step_in, not_met};

use crate::base::{Base, extends_of, is_at, service_at};
use crate::source::{Source, service_in};
use loaded_files::{LoadRefusal, ServiceAt};
use std::alloc::Global;
use tree_base::{Env, List, Map, Memory, Text};

/// A service of a chain, without what it extends.
#[derive(Drop)]
pub struct Layer {
    pub at: ServiceAt,
    pub service: Map,
}

/// A service and those that it extends, one after another, as far as they stand in the files that were read, and the
/// next one, where it stands in another.
#[derive(Drop)]
pub struct Chain {
    pub layers: List<Layer>,
    pub next: Option<ServiceAt>,
}

/// What follows a service of a chain.
#[derive(Drop)]
pub enum NextLink {
    /// The chain ends in this file.
    Ended(Chain),
    /// A service of the same file.
    Further(Text, List<Layer>),
}

/// The chain behind its layers, from the service of this name on, as far as it stands in a source.
pub(crate) fn chain_in(
    alloc: Global,
    env: &Env,
    source: &Source,
    name: &Text,
    layers: List<Layer>,
) -> Result<Chain, LoadRefusal>
    ensures given { IsGiven result
        (chain_in (length source.now.services) env.now source.now name.now layers) }
    ensures fault { (at : List ℕ) → result ≡ Err (LoadRefusal.ReadFault at) → ⊥ }
{
    let mut next = name.copy(alloc)?;
    let mut above = layers;
    let mut steps = source.services.len();
    while steps > 0 {
        steps -= 1;
        match step_in(alloc, env, source, &next, above)? {
            NextLink::Ended(chain) => return Ok(chain),
            NextLink::Further(base, more) => {
                next = base;
                above = more;
            }
        }
    }
    drop(above);
    Err(LoadRefusal::NoSuchBase {
        file: source.file.copy(alloc)?,
        service: next,
    })
}

/// One service more in a chain.
fn step_in(
    alloc: Global,
    env: &Env,
    source: &Source,
    name: &Text,
    layers: List<Layer>,
) -> Result<NextLink, LoadRefusal>
    ensures given { IsGiven result (step_in env.now source.now name.now layers) }
    ensures fault { (at : List ℕ) → result ≡ Err (LoadRefusal.ReadFault at) → ⊥ }
{
    let service = service_in(alloc, env, source, name)?;
    let base = extends_of(alloc, &service)?;
    let layers = with_layer(alloc, layers, &source.file, name, service)?;
    followed(alloc, &source.file, layers, base)
}

/// A chain with a service behind the others, without what it extends.
pub(crate) fn with_layer(
    alloc: Global,
    layers: List<Layer>,
    file: &Text,
    name: &Text,
    service: Map,
) -> Result<List<Layer>, Memory>
    ensures { IfOk result
        (λ all. all ≡ layers ++ layer_for file.now name.now service ∷ []) }
{
    let mut all = layers;
    all.push(layer_for(alloc, file, name, service)?)?;
    Ok(all)
}

/// A service of a chain, without what it extends.
pub(crate) fn layer_for(
    alloc: Global,
    file: &Text,
    name: &Text,
    service: Map,
) -> Result<Layer, Memory>
    ensures { IfOk result (λ layer. layer ≡ layer_for file.now name.now service) }
{
    let mut service = service;
    let extends = Text::from_str(alloc, "extends")?;
    drop(service.remove(&extends));
    let at = service_at(alloc, file, name)?;
    Ok(Layer { at, service })
}

/// What follows a service in its chain: nothing, or its base.
fn followed(
    alloc: Global,
    file: &Text,
    layers: List<Layer>,
    base: Option<Base>,
) -> Result<NextLink, LoadRefusal>
    ensures given { IsGiven result (followed file.now layers base) }
    ensures fault { (at : List ℕ) → result ≡ Err (LoadRefusal.ReadFault at) → ⊥ }
{
    match base {
        None => Ok(NextLink::Ended(Chain { layers, next: None })),
        Some(base) => further(alloc, file, layers, base),
    }
}

/// What follows where a service extends a base.
fn further(
    alloc: Global,
    file: &Text,
    layers: List<Layer>,
    base: Base,
) -> Result<NextLink, LoadRefusal>
    ensures given { IsGiven result (further file.now layers base.service base.file) }
    ensures fault { (at : List ℕ) → result ≡ Err (LoadRefusal.ReadFault at) → ⊥ }
{
    let Base {
        file: other,
        service,
    } = base;
    match other {
        None => {
            let at = service_at(alloc, file, &service)?;
            not_met(alloc, &at, layers.as_slice())?;
            Ok(NextLink::Further(service, layers))
        }
        Some(other) => {
            let at = ServiceAt {
                file: other,
                service,
            };
            not_met(alloc, &at, layers.as_slice())?;
            Ok(NextLink::Ended(Chain {
                layers,
                next: Some(at),
            }))
        }
    }
}

/// Refuses a base that is in its chain already.
fn not_met(alloc: Global, base: &ServiceAt, layers: &[Layer]) -> Result<(), LoadRefusal>
    ensures given { IsGiven result (not_met base.now layers.now) }
    ensures fault { (at : List ℕ) → result ≡ Err (LoadRefusal.ReadFault at) → ⊥ }
{
    match place_of(base, layers) {
        None => Ok(()),
        Some(place) => Err(LoadRefusal::ExtendsCycle {
            services: met_from(alloc, place, layers)?,
        }),
    }
}

/// The place of a service in a chain.
fn place_of(base: &ServiceAt, layers: &[Layer]) -> Option<usize>
    ensures { result ≡ position (λ layer. is_at base.now layer.at) layers.now }
{
    layers.iter().position(|layer| is_at(base, &layer.at))
}

/// The services of a chain from a place on.
fn met_from(alloc: Global, place: usize, layers: &[Layer]) -> Result<List<ServiceAt>, Memory>
    ensures { IfOk result (λ met. met ≡ met_from place layers.now) }
{
    let mut met = List::new(alloc);
    let mut at = place;
    while at < layers.len() {
        let layer = &layers[at];
        met.push(service_at(alloc, &layer.at.file, &layer.at.service)?)?;
        at += 1;
    }
    Ok(met)
}
