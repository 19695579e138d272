ghost use Rattle.std.specs.Prelude.{◌≡◌, [], ◌∷◌, ◌++◌, IfOk, OnOk, flat_map, map};
ghost use Rattle.std.specs.Option.{option_copied, option_to_list};
ghost use Rattle.notes.specs.Containers.{Knows, Learns, left_note, name_unknown, names_left, names_unknown, note_on, removed_ids, removed_in, rows_told, run_note};

use compose_words::Command;
use engine_types::{Exchange, Listed, Outcome, Reply, Request};
use run_lookups::shown;
use std::alloc::Global;
use tree_base::{Memory, Text, TextMap};

/// What is said of the run of a command, by whether it ended well, and by its exchanges: a `down` that did has removed all containers
/// of the project's services, so what it saw and left is of others.
pub fn run_note(
    alloc: Global,
    command: &Command,
    ended_well: bool,
    exchanges: &[&Exchange],
) -> Result<Option<Text>, Memory>
    ensures { IfOk result (λ note. note ≡ run_note command.now ended_well
        (map (λ exchange. exchange.now) exchanges.now)) }
{
    match command {
        Command::Down { .. } => {
            if ended_well {
                left_note(alloc, exchanges)
            } else {
                Ok(None)
            }
        }
        _ => Ok(None),
    }
}

/// What is said of the containers that the exchanges of a run list and don't remove, where there are any.
fn left_note(alloc: Global, exchanges: &[&Exchange]) -> Result<Option<Text>, Memory>
    ensures { IfOk result (λ note. note
        ≡ left_note (map (λ exchange. exchange.now) exchanges.now)) }
{
    let names = names_left(alloc, exchanges)?;
    note_on(alloc, names.as_str())
}

/// What is said of names, each behind a space, where there are any.
pub(crate) fn note_on(alloc: Global, names: &str) -> Result<Option<Text>, Memory>
    ensures { IfOk result (λ note. note ≡ note_on names.now) }
{
    if names.is_empty() {
        return Ok(None);
    }
    let note = format!(in alloc; "still there, of services that the project lacks:{names}")?;
    Ok(Some(Text::from_string(note)))
}

/// The names of the containers that are listed and weren't removed, each behind a space.
fn names_left(alloc: Global, exchanges: &[&Exchange]) -> Result<Text, Memory>
    ensures { IfOk result (λ names. names
        ≡ names_left (removed_ids (map (λ exchange. exchange.now) exchanges.now))
        (map (λ exchange. exchange.now) exchanges.now)) }
{
    let removed = removed_ids(alloc, exchanges)?;
    names_unknown(alloc, &removed, exchanges)
}

/// The names of the containers that are listed and aren't known by a map, each behind a space.
fn names_unknown(
    alloc: Global,
    known: &TextMap<bool>,
    exchanges: &[&Exchange],
) -> Result<Text, Memory>
    ensures { IfOk result (λ names. names
        ≡ names_unknown known.now (map (λ exchange. exchange.now) exchanges.now)) }
{
    let mut names = Text::new(alloc);
    for exchange in exchanges {
        push_names(alloc, known, rows_told(exchange), &mut names)?;
    }
    Ok(names)
}

/// The ids of the containers that were removed, as the keys of a map, so that each is found at once.
fn removed_ids(alloc: Global, exchanges: &[&Exchange]) -> Result<TextMap<bool>, Memory>
    ensures { IfOk result (λ known.
        Knows known (removed_ids (map (λ exchange. exchange.now) exchanges.now))) }
{
    let mut known = TextMap::new(alloc);
    for exchange in exchanges {
        note_removed(alloc, exchange, &mut known)?;
    }
    Ok(known)
}

fn note_removed(alloc: Global, exchange: &Exchange, known: &mut TextMap<bool>) -> Result<(), Memory>
    ensures { OnOk result (Learns known.old known.new
        (option_to_list (removed_in exchange.now.request exchange.now.outcome))) }
{
    match removed_in(exchange) {
        Some(id) => note_id(alloc, id, known),
        None => Ok(()),
    }
}

/// The id of the container that an exchange removed.
fn removed_in(exchange: &Exchange) -> Option<&Text>
    ensures { option_copied result ≡ removed_in exchange.now.request exchange.now.outcome }
{
    match (&exchange.request, &exchange.outcome) {
        (Request::Remove { id }, Outcome::Answered(Reply::Done)) => Some(id),
        _ => None,
    }
}

fn note_id(alloc: Global, id: &Text, known: &mut TextMap<bool>) -> Result<(), Memory>
    ensures { OnOk result (Learns known.old known.new (id.now ∷ [])) }
{
    known.put(id.copy(alloc)?, true)?;
    Ok(())
}

fn push_names(
    alloc: Global,
    removed: &TextMap<bool>,
    rows: &[Listed],
    names: &mut Text,
) -> Result<(), Memory>
    ensures { OnOk result (names.new
        ≡ names.old ++ flat_map (name_unknown removed.now) rows.now) }
{
    for row in rows {
        push_name(alloc, removed, row, names)?;
    }
    Ok(())
}

fn push_name(
    alloc: Global,
    removed: &TextMap<bool>,
    row: &Listed,
    names: &mut Text,
) -> Result<(), Memory>
    ensures { OnOk result (names.new ≡ names.old ++ name_unknown removed.now row.now) }
{
    if removed.get(&row.id).is_none() {
        let name = shown(alloc, row.name.as_str())?;
        names.push_str(" ")?;
        names.push_str(name.as_str())?;
    }
    Ok(())
}

/// The containers that an exchange lists.
pub(crate) fn rows_told(exchange: &Exchange) -> &[Listed]
    ensures { result.now ≡ rows_told exchange.now.outcome }
{
    match &exchange.outcome {
        Outcome::Answered(Reply::Containers(rows)) => rows.as_slice(),
        _ => &[],
    }
}
