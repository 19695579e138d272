ghost use Rattle.std.specs.Prelude.{◌≡◌, ◌++◌, IfOk, OnOk, flat_map, map};
ghost use Rattle.run_model.specs.Shown.{shown};
ghost use Rattle.hints.specs.Requests.{container_hint, in_use, is_on, is_still_on, names_in, names_on, network_hint, network_words, request_hint, spaced_name, still_words, used_words, words_with};

use crate::told::{container_name, is_gone, network_name, rows_told};
use engine_types::{Exchange, Listed, Outcome, Reply, Request};
use run_lookups::{is_live, shown};
use std::alloc::Global;
use tree_base::{Memory, Text};

/// What is said of a request that wasn't answered well, by the exchanges of its run: the name of the container or network whose id it
/// has. Where a network wasn't removed since it is used, the containers that are still on it are told in place of its name alone:
/// those of the project that were seen to run on it, and that weren't removed.
pub fn request_hint(
    alloc: Global,
    request: &Request,
    outcome: &Outcome,
    exchanges: &[&Exchange],
) -> Result<Option<Text>, Memory>
    ensures { IfOk result (λ hint. hint ≡ request_hint request.now outcome.now
        (map (λ exchange. exchange.now) exchanges.now)) }
{
    match request {
        Request::Inspect { id } => container_hint(alloc, id, exchanges),
        Request::Logs { id } => container_hint(alloc, id, exchanges),
        Request::Start { id } => container_hint(alloc, id, exchanges),
        Request::Stop { id, .. } => container_hint(alloc, id, exchanges),
        Request::Remove { id } => container_hint(alloc, id, exchanges),
        Request::Connect { container, .. } => container_hint(alloc, container, exchanges),
        Request::RemoveNetwork { id } => network_hint(alloc, id, outcome, exchanges),
        _ => Ok(None),
    }
}

fn container_hint(alloc: Global, id: &Text, exchanges: &[&Exchange]) -> Result<Option<Text>, Memory>
    ensures { IfOk result (λ hint. hint
        ≡ container_hint id.now (map (λ exchange. exchange.now) exchanges.now)) }
{
    match container_name(id, exchanges) {
        Some(name) => Ok(Some(naming(alloc, "the container is ", name)?)),
        None => Ok(None),
    }
}

fn network_hint(
    alloc: Global,
    id: &Text,
    outcome: &Outcome,
    exchanges: &[&Exchange],
) -> Result<Option<Text>, Memory>
    ensures { IfOk result (λ hint. hint
        ≡ network_hint id.now outcome.now (map (λ exchange. exchange.now) exchanges.now)) }
{
    match network_name(id, exchanges) {
        Some(name) => Ok(Some(network_words(alloc, name, outcome, exchanges)?)),
        None => Ok(None),
    }
}

fn network_words(
    alloc: Global,
    network: &Text,
    outcome: &Outcome,
    exchanges: &[&Exchange],
) -> Result<Text, Memory>
    ensures { IfOk result (λ words. words
        ≡ network_words network.now outcome.now (map (λ exchange. exchange.now) exchanges.now)) }
{
    let names = names_on(alloc, network, exchanges)?;
    words_with(alloc, network, in_use(outcome), names.as_str())
}

/// The words by whether the network is used, and the names of those that are still on it.
fn words_with(alloc: Global, network: &Text, used: bool, names: &str) -> Result<Text, Memory>
    ensures { IfOk result (λ words. words ≡ words_with network.now used names.now) }
{
    if used {
        used_words(alloc, network, names)
    } else {
        naming(alloc, "the network is ", network)
    }
}

fn used_words(alloc: Global, network: &Text, names: &str) -> Result<Text, Memory>
    ensures { IfOk result (λ words. words ≡ used_words network.now names.now) }
{
    if names.len() == 0 {
        naming(alloc, "the network is ", network)
    } else {
        still_words(alloc, network, names)
    }
}

fn still_words(alloc: Global, network: &Text, names: &str) -> Result<Text, Memory>
    ensures { IfOk result (λ words. words ≡ still_words network.now names.now) }
{
    let network = shown(alloc, network.as_str())?;
    let mut words = Text::from_str(alloc, "still on the network ")?;
    words.push_str(network.as_str())?;
    words.push_str(":")?;
    words.push_str(names)?;
    Ok(words)
}

/// Words before a name that an Engine may have sent.
fn naming(alloc: Global, words: &str, name: &Text) -> Result<Text, Memory>
    ensures { IfOk result (λ all. all ≡ words.now ++ shown name.now) }
{
    let name = shown(alloc, name.as_str())?;
    let all = format!(in alloc; "{words}{name}")?;
    Ok(Text::from_string(all))
}

/// Whether the Engine refused to remove a network since it is used.
fn in_use(outcome: &Outcome) -> bool
    ensures { result ≡ in_use outcome.now }
{
    match outcome {
        Outcome::Answered(Reply::Refused { status, .. }) => *status == 403,
        _ => false,
    }
}

/// The names of the containers that are still on a network, each behind a space.
fn names_on(alloc: Global, network: &Text, exchanges: &[&Exchange]) -> Result<Text, Memory>
    ensures { IfOk result (λ names. names
        ≡ names_on network.now (map (λ exchange. exchange.now) exchanges.now)) }
{
    let mut names = Text::new(alloc);
    for exchange in exchanges {
        push_names(alloc, network, exchanges, rows_told(exchange), &mut names)?;
    }
    Ok(names)
}

fn push_names(
    alloc: Global,
    network: &Text,
    exchanges: &[&Exchange],
    rows: &[Listed],
    names: &mut Text,
) -> Result<(), Memory>
    ensures { OnOk result (names.new ≡ names.old
        ++ names_in network.now (map (λ exchange. exchange.now) exchanges.now) rows.now) }
{
    for row in rows {
        push_name(alloc, network, exchanges, row, names)?;
    }
    Ok(())
}

fn push_name(
    alloc: Global,
    network: &Text,
    exchanges: &[&Exchange],
    row: &Listed,
    names: &mut Text,
) -> Result<(), Memory>
    ensures { OnOk result (names.new ≡ names.old
        ++ spaced_name network.now (map (λ exchange. exchange.now) exchanges.now) row.now) }
{
    if is_still_on(network, exchanges, row) {
        let name = shown(alloc, row.name.as_str())?;
        names.push_str(" ")?;
        names.push_str(name.as_str())?;
    }
    Ok(())
}

/// Whether a container that was listed runs on a network, and wasn't removed.
fn is_still_on(network: &Text, exchanges: &[&Exchange], row: &Listed) -> bool
    ensures { result ≡ is_still_on network.now (map (λ exchange. exchange.now) exchanges.now)
        row.now }
{
    is_live(row.state) && is_on(network, row) && !is_gone(&row.id, exchanges)
}

fn is_on(network: &Text, row: &Listed) -> bool
    ensures { result ≡ is_on network.now row.now }
{
    row.networks.as_slice().iter().any(|own| *own == *network)
}
