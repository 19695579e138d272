ghost use Rattle.std.specs.Prelude.{◌≡◌, ◌<◌, Ok, Some, IfOk, IfSome, OnOk, length, reverse};
ghost use Rattle.service_bases.specs.Bases.{extends_of, service_in};
ghost use Rattle.service_bases.specs.Known.{AreWhole, IsExtended, IsOver, Leads, Meets};
ghost use Rattle.tree_base.specs.Entries.{value_at, with_entry};

use crate::base::{Base, extends_of};
use crate::chain::{Layer, layer_for, with_layer};
use crate::laid::layer_over;
use crate::source::{Source, service_in};
use std::alloc::Global;
use tree_base::{Env, List, Map, Memory, Text, TextMap, TryCopy};

/// A service over all that it extends, and how many services its chain has.
#[derive(Drop)]
pub struct Whole {
    pub service: Map,
    pub length: usize,
}

/// The services of a chain up to one that is known, which comes next.
#[derive(Drop)]
pub struct Opening {
    pub layers: List<Layer>,
    pub base: Text,
}

/// What is met at the next service of a chain, whose layers are handed on.
#[derive(Drop)]
pub enum Met {
    /// It is known.
    Known(List<Layer>),
    /// It extends a service of the same file.
    Further(Text, List<Layer>),
    /// It isn't there, or extends a service of another file.
    Away,
}

/// A service over all that it extends, where that stays in its file and is laid well: each service of its chain is laid once,
/// and known from then on. None where the chain is to be followed whole, with its reads and refusals.
pub(crate) fn extended_here(
    alloc: Global,
    env: &Env,
    source: &Source,
    known: &mut TextMap<Whole>,
    name: &Text,
) -> Result<Option<Map>, Memory>
    requires { AreWhole env.now source.now known.old }
    ensures known { OnOk result (AreWhole env.now source.now known.new) }
    ensures extended { IfOk result (λ found. IfSome found
        (λ service. IsExtended env.now source.now name.now service)) }
{
    match opened(alloc, env, source, known, name)? {
        Some(opening) => laid_here(alloc, env, source, known, name, opening),
        None => Ok(None),
    }
}

/// Follows a chain up to the first service that is known; one that extends nothing is known at once.
fn opened(
    alloc: Global,
    env: &Env,
    source: &Source,
    known: &mut TextMap<Whole>,
    name: &Text,
) -> Result<Option<Opening>, Memory>
    requires { AreWhole env.now source.now known.old }
    ensures known { OnOk result (AreWhole env.now source.now known.new) }
    ensures opens { IfOk result (λ found. IfSome found (λ opening.
        Leads env.now source.now name.now (reverse opening.layers) opening.base)) }
{
    let mut next = name.copy(alloc)?;
    let mut above = List::new(alloc);
    let mut steps = source.services.len();
    while steps > 0 {
        steps -= 1;
        match meet(alloc, env, source, known, &next, above)? {
            Met::Known(layers) => return Ok(Some(Opening { layers, base: next })),
            Met::Further(base, more) => {
                next = base;
                above = more;
            }
            Met::Away => return Ok(None),
        }
    }
    drop(above);
    Ok(None)
}

/// What is met at a service behind these layers.
fn meet(
    alloc: Global,
    env: &Env,
    source: &Source,
    known: &mut TextMap<Whole>,
    name: &Text,
    layers: List<Layer>,
) -> Result<Met, Memory>
    requires some { 0 < length source.now.services }
    requires known { AreWhole env.now source.now known.old }
    ensures known { OnOk result (AreWhole env.now source.now known.new) }
    ensures meets { IfOk result (λ met. Meets env.now source.now name.now layers met) }
{
    if known.get(name).is_some() {
        return Ok(Met::Known(layers));
    }
    match service_in(alloc, env, source, name) {
        Ok(service) => met_service(alloc, env, source, known, name, layers, service),
        Err(refusal) => {
            drop(refusal);
            drop(layers);
            Ok(Met::Away)
        }
    }
}

/// What a service is that isn't known yet.
fn met_service(
    alloc: Global,
    env: &Env,
    source: &Source,
    known: &mut TextMap<Whole>,
    name: &Text,
    layers: List<Layer>,
    service: Map,
) -> Result<Met, Memory>
    requires some { 0 < length source.now.services }
    requires known { AreWhole env.now source.now known.old }
    requires found { service_in env.now source.now name.now ≡ Ok service }
    ensures known { OnOk result (AreWhole env.now source.now known.new) }
    ensures meets { IfOk result (λ met. Meets env.now source.now name.now layers met) }
{
    match extends_of(alloc, &service)? {
        Some(base) => met_base(alloc, env, source, name, layers, service, base),
        None => {
            let last = layer_for(alloc, &source.file, name, service)?;
            let whole = Whole {
                service: last.service,
                length: 1,
            };
            drop(known.put(name.copy(alloc)?, whole)?);
            Ok(Met::Known(layers))
        }
    }
}

/// What a service is that extends a base.
fn met_base(
    alloc: Global,
    env: &Env,
    source: &Source,
    name: &Text,
    layers: List<Layer>,
    service: Map,
    base: Base,
) -> Result<Met, Memory>
    requires found { service_in env.now source.now name.now ≡ Ok service }
    requires extends { extends_of service ≡ Some base }
    ensures { IfOk result (λ met. Meets env.now source.now name.now layers met) }
{
    let Base {
        file,
        service: next,
    } = base;
    match file {
        None => {
            let more = with_layer(alloc, layers, &source.file, name, service)?;
            Ok(Met::Further(next, more))
        }
        Some(other) => {
            drop(other);
            Ok(Met::Away)
        }
    }
}

/// Lays the services of a chain over the one that is known, from its end up, and knows each from then on.
fn laid_here(
    alloc: Global,
    env: &Env,
    source: &Source,
    known: &mut TextMap<Whole>,
    name: &Text,
    opening: Opening,
) -> Result<Option<Map>, Memory>
    requires known { AreWhole env.now source.now known.old }
    requires opens { Leads env.now source.now name.now (reverse opening.layers) opening.base }
    ensures known { OnOk result (AreWhole env.now source.now known.new) }
    ensures extended { IfOk result (λ found. IfSome found
        (λ service. IsExtended env.now source.now name.now service)) }
{
    let Opening { layers, base } = opening;
    match known_copy(alloc, known, &base)? {
        Some(whole) => laid_onto(alloc, env, source, known, name, whole, layers, base),
        None => {
            drop(layers);
            Ok(None)
        }
    }
}

/// The same over a service that is known.
fn laid_onto(
    alloc: Global,
    env: &Env,
    source: &Source,
    known: &mut TextMap<Whole>,
    name: &Text,
    whole: Whole,
    layers: List<Layer>,
    base: Text,
) -> Result<Option<Map>, Memory>
    requires known { AreWhole env.now source.now known.old }
    requires leads { Leads env.now source.now name.now (reverse layers) base }
    requires whole { value_at known.old base ≡ Some whole }
    ensures known { OnOk result (AreWhole env.now source.now known.new) }
    ensures extended { IfOk result (λ found. IfSome found
        (λ service. IsExtended env.now source.now name.now service)) }
{
    drop(base);
    let mut below = whole;
    let mut rest = layers;
    while let Some(layer) = rest.pop() {
        match over(alloc, source, below, &layer) {
            None => return Ok(None),
            Some(more) => {
                put_copy(alloc, known, &layer.at.service, &more)?;
                below = more;
            }
        }
    }
    Ok(Some(below.service))
}

/// One layer more over what its base is; None where that is refused.
fn over(alloc: Global, source: &Source, below: Whole, layer: &Layer) -> Option<Whole>
    ensures { IfSome result (λ whole. IsOver source.now below layer.now whole) }
{
    let Whole { service, length } = below;
    if length >= source.services.len() {
        drop(service);
        return None;
    }
    match layer_over(alloc, service, layer) {
        Ok(service) => Some(Whole {
            service,
            length: length + 1,
        }),
        Err(refusal) => {
            drop(refusal);
            None
        }
    }
}

/// A service that is known, copied. Its attributes are shared.
fn known_copy(alloc: Global, known: &TextMap<Whole>, name: &Text) -> Result<Option<Whole>, Memory>
    ensures { IfOk result (λ copy. copy ≡ value_at known.now name.now) }
{
    match known.get(name) {
        None => Ok(None),
        Some(whole) => {
            let copy = copied(alloc, whole)?;
            Ok(Some(copy))
        }
    }
}

fn copied(alloc: Global, whole: &Whole) -> Result<Whole, Memory>
    ensures { IfOk result (λ copy. copy ≡ whole.now) }
{
    let service = whole.service.copy(alloc)?;
    Ok(Whole {
        service,
        length: whole.length,
    })
}

/// Knows a service from now on.
fn put_copy(
    alloc: Global,
    known: &mut TextMap<Whole>,
    name: &Text,
    whole: &Whole,
) -> Result<(), Memory>
    ensures { OnOk result (known.new ≡ with_entry known.old name.now whole.now) }
{
    let copy = copied(alloc, whole)?;
    drop(known.put(name.copy(alloc)?, copy)?);
    Ok(())
}
