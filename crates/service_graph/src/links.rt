ghost use Rattle.std.specs.Prelude.{◌≡◌, ◌++◌, [], IfOk, OnOk};
ghost use Rattle.std.specs.Cmp.Lexicographic.{slice_cmp};
ghost use Rattle.std.specs.List.{cons_option};
ghost use Rattle.std.specs.Ordering.{nat_cmp};
ghost use Rattle.typed_project.specs.Projects.{IsInOrder};
ghost use Rattle.service_graph.specs.Cycles.{dependencies_of};
ghost use Rattle.service_graph.specs.Places.{links_of, place_of, places_of};

use attribute_types::Dependency;
use std::alloc::Global;
use std::cmp::Ordering;
use tree_base::{List, Memory, Text};
use typed_project::Service;

/// For each service the places of those that it needs, in byte order of their keys. What isn't there is passed over.
pub(crate) fn links_of(alloc: Global, services: &[Service]) -> Result<List<List<usize>>, Memory>
    requires { IsInOrder services.now }
    ensures { IfOk result (λ links. links ≡ links_of services.now) }
{
    let mut links = List::new(alloc);
    for service in services {
        links.push(places_of(alloc, services, service)?)?;
    }
    Ok(links)
}

fn places_of(alloc: Global, services: &[Service], service: &Service) -> Result<List<usize>, Memory>
    requires { IsInOrder services.now }
    ensures { IfOk result (λ places. places ≡ places_of services.now service.now) }
{
    let mut places = List::new(alloc);
    let needs = needs_of(service);
    for need in needs {
        put(place_of(services, &need.key), &mut places)?;
    }
    Ok(places)
}

/// Puts a place last, where there is one.
fn put(place: Option<usize>, places: &mut List<usize>) -> Result<(), Memory>
    ensures { OnOk result (places.new ≡ places.old ++ cons_option place []) }
{
    if let Some(place) = place {
        places.push(place)?;
    }
    Ok(())
}

/// What a service needs.
fn needs_of(service: &Service) -> &[Dependency]
    ensures { result.now ≡ dependencies_of service.now }
{
    match service.depends_on() {
        Some(list) => list.as_slice(),
        None => &[],
    }
}

/// The place of the service with a key, which is looked for by halves.
fn place_of(services: &[Service], key: &Text) -> Option<usize>
    requires { IsInOrder services.now }
    ensures { result ≡ place_of services.now key.now }
{
    services
        .binary_search_by(
            |service|
                ensures { result ≡ slice_cmp nat_cmp service.now.key key.entry.now }
            { order_to(service, key) },
        )
        .ok()
}

/// How the key of a service stands to a key in byte order.
fn order_to(service: &Service, key: &Text) -> Ordering
    ensures { result ≡ slice_cmp nat_cmp service.now.key key.now }
{
    service.key.as_str().cmp(key.as_str())
}
