ghost use Rattle.std.specs.Prelude.{◌≡◌, ◌<◌, IfOk, false, length, option_map, true};
ghost use Rattle.typed_project.specs.Projects.{IsInOrder};
ghost use Rattle.service_graph.specs.Cycles.{cycle};
ghost use Rattle.service_graph.specs.Ranks.{AreRanked};
ghost use Rattle.service_graph.specs.Places.{AreWithin, first_back, key_at, keys_on, way_back};

use crate::links::links_of;
use crate::ranks::{are_ranked, is_apart, ranks_of};
use crate::ways::way_back;
use std::alloc::Global;
use tree_base::{List, Memory, Text};
use typed_project::{Project, Service};

/// The services of a circle, each needing the next and the last one the first: that of the least service that is on one, the
/// shortest of these, and the first in byte order item by item. None exactly where there is no circle. Memory where
/// there is no memory for it.
pub fn cycle(alloc: Global, project: &Project) -> Result<Option<List<Text>>, Memory>
    requires { IsInOrder project.now.services }
    ensures { IfOk result (λ circle. circle ≡ cycle project.now.services) }
{
    let services = project.services.as_slice();
    let links = links_of(alloc, services)?;
    let way = first_back(alloc, links.as_slice())?;
    let circle = told(alloc, services, way)?;
    Ok(circle)
}

/// The keys on a way, where there is one.
fn told(
    alloc: Global,
    services: &[Service],
    way: Option<List<usize>>,
) -> Result<Option<List<Text>>, Memory>
    ensures { IfOk result (λ circle. circle ≡ option_map (keys_on services.now) way) }
{
    match way {
        Some(way) => Ok(Some(keys_on(alloc, services, way.as_slice())?)),
        None => Ok(None),
    }
}

/// The first way back to a place that has one. Places that lead to greater ranks alone have none, where no link makes ranks less,
/// and aren't asked.
fn first_back(alloc: Global, links: &[List<usize>]) -> Result<Option<List<usize>>, Memory>
    requires { AreWithin links.now }
    ensures { IfOk result (λ way. way ≡ first_back links.now) }
{
    let ranks = ranks_of(alloc, links)?;
    let ranked = are_ranked(links, ranks.as_slice());
    for start in 0..links.len() {
        let asked = is_asked(links, ranks.as_slice(), ranked, start);
        if let Some(way) = asked_back(alloc, links, start, asked)? {
            return Ok(Some(way));
        }
    }
    Ok(None)
}

/// Whether a place may have a way back, by ranks that no link makes less.
fn is_asked(links: &[List<usize>], ranks: &[usize], ranked: bool, start: usize) -> bool
    requires { ranked ≡ true → AreRanked links.now ranks.now }
    ensures { result ≡ false → way_back links.now start ≡ None }
{
    if ranked {
        !is_apart(links, ranks, start)
    } else {
        true
    }
}

/// The way back to a place, where it is asked for.
fn asked_back(
    alloc: Global,
    links: &[List<usize>],
    start: usize,
    asked: bool,
) -> Result<Option<List<usize>>, Memory>
    requires within { AreWithin links.now }
    requires start { start < length links.now }
    requires unasked { asked ≡ false → way_back links.now start ≡ None }
    ensures { IfOk result (λ way. way ≡ way_back links.now start) }
{
    if asked {
        way_back(alloc, links, start)
    } else {
        Ok(None)
    }
}

/// The keys of the services at places.
fn keys_on(alloc: Global, services: &[Service], way: &[usize]) -> Result<List<Text>, Memory>
    ensures { IfOk result (λ keys. keys ≡ keys_on services.now way.now) }
{
    let mut keys = List::new(alloc);
    for place in way {
        let key = key_at(alloc, services, *place)?;
        keys.push(key)?;
    }
    Ok(keys)
}

fn key_at(alloc: Global, services: &[Service], place: usize) -> Result<Text, Memory>
    ensures { IfOk result (λ key. key ≡ key_at services.now place) }
{
    match services.get(place) {
        Some(service) => service.key.copy(alloc),
        None => Ok(Text::new(alloc)),
    }
}
