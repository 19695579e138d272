ghost use Rattle.std.specs.Prelude.{◌≡◌, ◌↔◌, IfSome, IsSome, true};
ghost use Rattle.std.specs.List.{list_all, list_any};
ghost use Rattle.std.specs.Option.{option_copied};
ghost use Rattle.std.specs.Str.{bytes_eq};
ghost use Rattle.run_model.specs.EngineRules.{network_at};
ghost use Rattle.engine_holding.specs.Holding.{are_apart, are_attached, are_foreign, are_networks, are_told_apart, can_be_held, is_foreign};

use engine_types::{ContainerRow, Engine, ImageRow, NetRow};
use memory_engine::{Catalogue, FaultPlan, MemoryEngine, Tick};
use tree_base::{List, Text};

/// An Engine that holds this, with which no exchange was made yet. None exactly where ids or names come twice, a
/// container is on a network that isn't there, or an id has 64 characters, as those have that the Engine gives. No
/// memory.
pub fn engine_that_holds(
    engine: Engine,
    script: List<Tick>,
    faults: FaultPlan,
    catalogue: Catalogue,
) -> Option<MemoryEngine>
    ensures held { IsSome result ↔ (can_be_held engine ≡ true) }
    ensures engine { IfSome result (λ m. m.engine ≡ engine) }
    ensures script { IfSome result (λ m. m.script ≡ script) }
    ensures faults { IfSome result (λ m. m.faults ≡ faults) }
    ensures made { IfSome result (λ m. m.made ≡ 0) }
    ensures catalogue { IfSome result (λ m. m.catalogue ≡ catalogue) }
{
    if can_be_held(&engine) {
        Some(held(engine, script, faults, catalogue))
    } else {
        None
    }
}

/// An Engine in memory that holds what it can hold.
fn held(engine: Engine, script: List<Tick>, faults: FaultPlan, catalogue: Catalogue) -> MemoryEngine
    requires { can_be_held engine ≡ true }
    ensures engine { result.engine ≡ engine }
    ensures script { result.script ≡ script }
    ensures faults { result.faults ≡ faults }
    ensures made { result.made ≡ 0 }
    ensures catalogue { result.catalogue ≡ catalogue }
{
    MemoryEngine::holding(engine, script, faults, catalogue)
}

/// Whether an Engine in memory can hold this.
fn can_be_held(engine: &Engine) -> bool
    ensures { result ≡ can_be_held engine.now }
{
    are_told_apart(engine) && are_attached(engine) && are_foreign(engine)
}

/// Whether ids and names tell all things apart.
fn are_told_apart(engine: &Engine) -> bool
    ensures { result ≡ are_told_apart engine.now }
{
    have_own_ids(engine.containers.as_slice())
        && have_own_names(engine.containers.as_slice())
        && are_own_networks(engine.networks.as_slice())
        && are_own_volumes(engine.volumes.as_slice())
        && are_own_images(engine.images.as_slice())
}

fn have_own_ids(rows: &[ContainerRow]) -> bool
    ensures { result ≡ are_apart (λ row. row.id) rows.now }
{
    match rows {
        [] => true,
        [first, later @ ..] => !is_id_among(later, &first.id) && have_own_ids(later),
    }
}

fn is_id_among(rows: &[ContainerRow], id: &Text) -> bool
    ensures { result ≡ list_any (λ row. bytes_eq id.now row.id) rows.now }
{
    rows.iter().any(|row| *id == row.id)
}

fn have_own_names(rows: &[ContainerRow]) -> bool
    ensures { result ≡ are_apart (λ row. row.name) rows.now }
{
    match rows {
        [] => true,
        [first, later @ ..] => !is_name_among(later, &first.name) && have_own_names(later),
    }
}

fn is_name_among(rows: &[ContainerRow], name: &Text) -> bool
    ensures { result ≡ list_any (λ row. bytes_eq name.now row.name) rows.now }
{
    rows.iter().any(|row| *name == row.name)
}

fn are_own_networks(rows: &[NetRow]) -> bool
    ensures { result ≡ are_apart (λ row. row.id) rows.now }
{
    match rows {
        [] => true,
        [first, later @ ..] => !is_network_among(later, &first.id) && are_own_networks(later),
    }
}

fn is_network_among(rows: &[NetRow], id: &Text) -> bool
    ensures { result ≡ list_any (λ row. bytes_eq id.now row.id) rows.now }
{
    rows.iter().any(|row| *id == row.id)
}

fn are_own_volumes(names: &[Text]) -> bool
    ensures { result ≡ are_apart (λ name. name) names.now }
{
    match names {
        [] => true,
        [first, later @ ..] => !is_among(later, first) && are_own_volumes(later),
    }
}

fn is_among(names: &[Text], name: &Text) -> bool
    ensures { result ≡ list_any (bytes_eq name.now) names.now }
{
    names.iter().any(|other| *name == *other)
}

fn are_own_images(rows: &[ImageRow]) -> bool
    ensures { result ≡ are_apart (λ row. row.name) rows.now }
{
    match rows {
        [] => true,
        [first, later @ ..] => !is_image_among(later, &first.name) && are_own_images(later),
    }
}

fn is_image_among(rows: &[ImageRow], name: &Text) -> bool
    ensures { result ≡ list_any (λ row. bytes_eq name.now row.name) rows.now }
{
    rows.iter().any(|row| *name == row.name)
}

/// Whether the networks of each container are there.
fn are_attached(engine: &Engine) -> bool
    ensures { result ≡ are_attached engine.now }
{
    engine
        .containers
        .as_slice()
        .iter()
        .all(|row| are_networks(engine, row.networks.as_slice()))
}

fn are_networks(engine: &Engine, ids: &[Text]) -> bool
    ensures { result ≡ are_networks engine.now ids.now }
{
    ids.iter().all(|id| network(engine, id).is_some())
}

fn network<'e>(engine: &'e Engine, id: &Text) -> Option<&'e NetRow>
    ensures { option_copied result ≡ network_at engine.now id.now }
{
    engine.networks.as_slice().iter().find(|row| row.id == *id)
}

/// Whether no id looks like one that the Engine gives.
fn are_foreign(engine: &Engine) -> bool
    ensures { result ≡ are_foreign engine.now }
{
    are_foreign_containers(engine.containers.as_slice())
        && are_foreign_networks(engine.networks.as_slice())
}

fn are_foreign_containers(rows: &[ContainerRow]) -> bool
    ensures { result ≡ list_all (λ row. is_foreign row.id) rows.now }
{
    rows.iter().all(|row| is_foreign(&row.id))
}

fn are_foreign_networks(rows: &[NetRow]) -> bool
    ensures { result ≡ list_all (λ row. is_foreign row.id) rows.now }
{
    rows.iter().all(|row| is_foreign(&row.id))
}

/// Whether an id hasn't the length of those that the Engine gives.
fn is_foreign(id: &Text) -> bool
    ensures { result ≡ is_foreign id.now }
{
    id.len() != 64
}
