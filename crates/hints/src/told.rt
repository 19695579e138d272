ghost use Rattle.std.specs.Prelude.{◌≡◌, find, map};
ghost use Rattle.std.specs.List.{list_any};
ghost use Rattle.std.specs.Option.{option_copied, option_map};
ghost use Rattle.std.specs.Str.{bytes_eq};
ghost use Rattle.engine_types.specs.declared.Outcome.{Outcome};
ghost use Rattle.hints.specs.Told.{container_name, container_told, is_gone, is_removal, listed_name, listed_network, made_container, made_network, network_name, network_told, rows_told};

use engine_types::{Exchange, Listed, NetRow, Outcome, Reply, Request};
use tree_base::{List, Text};

/// The name of the container that has an id, as exchanges tell it: as a listing shows it, or as the container was made.
pub(crate) fn container_name<'a>(id: &Text, exchanges: &[&'a Exchange]) -> Option<&'a Text>
    ensures { option_copied result
        ≡ container_name id.now (map (λ exchange. exchange.now) exchanges.now) }
{
    for exchange in exchanges {
        if let Some(name) = container_told(id, exchange) {
            return Some(name);
        }
    }
    None
}

/// The name of the network that has an id, in the same way.
pub(crate) fn network_name<'a>(id: &Text, exchanges: &[&'a Exchange]) -> Option<&'a Text>
    ensures { option_copied result
        ≡ network_name id.now (map (λ exchange. exchange.now) exchanges.now) }
{
    for exchange in exchanges {
        if let Some(name) = network_told(id, exchange) {
            return Some(name);
        }
    }
    None
}

/// Whether the container with an id was removed.
pub(crate) fn is_gone(id: &Text, exchanges: &[&Exchange]) -> bool
    ensures { result ≡ is_gone id.now (map (λ exchange. exchange.now) exchanges.now) }
{
    for exchange in exchanges {
        if is_removal(id, exchange) {
            return true;
        }
    }
    false
}

/// The containers that an exchange lists.
pub(crate) fn rows_told(exchange: &Exchange) -> &[Listed]
    ensures { result.now ≡ rows_told exchange.now.outcome }
{
    match &exchange.outcome {
        Outcome::Answered(Reply::Containers(rows)) => rows.as_slice(),
        _ => &[],
    }
}

fn container_told<'a>(id: &Text, exchange: &'a Exchange) -> Option<&'a Text>
    ensures { option_copied result
        ≡ container_told id.now exchange.now.request exchange.now.outcome }
{
    match &exchange.outcome {
        Outcome::Answered(Reply::Containers(rows)) => listed_name(id, rows),
        Outcome::Answered(Reply::Made(made)) if *made == *id => made_container(&exchange.request),
        _ => None,
    }
}

fn network_told<'a>(id: &Text, exchange: &'a Exchange) -> Option<&'a Text>
    ensures { option_copied result
        ≡ network_told id.now exchange.now.request exchange.now.outcome }
{
    match &exchange.outcome {
        Outcome::Answered(Reply::Networks(rows)) => listed_network(id, rows),
        Outcome::Answered(Reply::Made(made)) if *made == *id => made_network(&exchange.request),
        _ => None,
    }
}

fn listed_name<'a>(id: &Text, rows: &'a List<Listed>) -> Option<&'a Text>
    ensures { option_copied result ≡ listed_name id.now rows.now }
{
    let row = rows.as_slice().iter().find(|row| row.id == *id)?;
    Some(&row.name)
}

fn listed_network<'a>(id: &Text, rows: &'a List<NetRow>) -> Option<&'a Text>
    ensures { option_copied result ≡ listed_network id.now rows.now }
{
    let row = rows.as_slice().iter().find(|row| row.id == *id)?;
    Some(&row.name)
}

/// The name of the container that a request makes.
fn made_container(request: &Request) -> Option<&Text>
    ensures { option_copied result ≡ made_container request.now }
{
    match request {
        Request::Create { name, .. } => Some(name),
        _ => None,
    }
}

/// The name of the network that a request makes.
fn made_network(request: &Request) -> Option<&Text>
    ensures { option_copied result ≡ made_network request.now }
{
    match request {
        Request::MakeNetwork { spec } => Some(&spec.name),
        _ => None,
    }
}

/// Whether an exchange removed the container with an id.
fn is_removal(id: &Text, exchange: &Exchange) -> bool
    ensures { result ≡ is_removal id.now exchange.now.request exchange.now.outcome }
{
    match (&exchange.request, &exchange.outcome) {
        (Request::Remove { id: removed }, Outcome::Answered(Reply::Done)) => *removed == *id,
        _ => false,
    }
}
