ghost use Rattle.std.specs.Prelude.{◌≡◌, ◌++◌, ◌∷◌, [], List, map, IfOk, OnOk};
ghost use Rattle.std.specs.Map.{keys_of};
ghost use Rattle.engine_types.specs.declared.Listed.{Listed};
ghost use Rattle.engine_types.specs.declared.Declared.{Declared};
ghost use Rattle.engine_types.specs.declared.Purpose.{Purpose};
ghost use Rattle.engine_types.specs.declared.Request.{Request};
ghost use Rattle.run_model.specs.Observation.{after_containers, after_networks, after_volumes, asking, judging, listing_networks, listing_volumes, observed, seen_containers};
ghost use Rattle.tree_base.specs.ByteOrder.{first_of_each};
ghost use Rattle.outside_api.specs.Standings.{standing};
ghost use Rattle.observe_project.specs.Steps.{Reads, Steps};

use crate::asking::{ask, keep};
use crate::keys::put_key;
use crate::outcomes::{containers_told, fault_in, networks_told, or_memory, volumes_told};
use engine_types::{Declared, Exchange, Listed, NetRow, Request, Seen, SeenFault};
use outside_api::Hand;
use std::alloc::Global;
use tree_base::{List, Memory, ReservedList, Text, TextMap, TryCopy};

/// Lists the project's containers, and its networks and volumes where it declares any.
pub(crate) fn list_all<H: Hand>(
    alloc: Global,
    hand: &mut H,
    declared: &Declared,
    exchanges: &mut ReservedList<Exchange>,
) -> Result<Seen, SeenFault>
    ensures { (purpose : Purpose)
        → Steps (observed declared.now purpose)
        (judging declared.now purpose) result exchanges.old.items exchanges.new.items
        (standing (H.log hand.old) (H.engine hand.old) (H.heard hand.old)
        (H.faults hand.old) (H.clock hand.old))
        (standing (H.log hand.new) (H.engine hand.new) (H.heard hand.new)
        (H.faults hand.new) (H.clock hand.new)) }
{
    let containers = list_containers(alloc, hand, declared, exchanges)?;
    let networks = list_networks(alloc, hand, declared, containers, exchanges)?;
    list_volumes(alloc, hand, declared, networks, exchanges)
}

/// Lists the project's containers.
fn list_containers<H: Hand>(
    alloc: Global,
    hand: &mut H,
    declared: &Declared,
    exchanges: &mut ReservedList<Exchange>,
) -> Result<Seen, SeenFault>
    ensures { (purpose : Purpose)
        → Steps (observed declared.now purpose)
        (listing_networks declared.now purpose) result exchanges.old.items exchanges.new.items
        (standing (H.log hand.old) (H.engine hand.old) (H.heard hand.old)
        (H.faults hand.old) (H.clock hand.old))
        (standing (H.log hand.new) (H.engine hand.new) (H.heard hand.new)
        (H.faults hand.new) (H.clock hand.new)) }
{
    let project = or_memory(declared.project.copy(alloc))?;
    let exchange = ask(alloc, hand, Request::ListContainers { project }, exchanges)?;
    let seen = read_containers(alloc, &exchange);
    keep(exchanges, exchange);
    seen
}

fn read_containers(alloc: Global, exchange: &Exchange) -> Result<Seen, SeenFault>
    ensures { (declared : Declared) (purpose : Purpose)
        → exchange.now.request ≡ Request.ListContainers declared.project
        → Reads (after_containers declared purpose exchange.now.outcome)
        (listing_networks declared purpose)
        exchange.now.request exchange.now.outcome result }
{
    match containers_told(&exchange.outcome) {
        Some(rows) => or_memory(see_containers(alloc, rows.as_slice())),
        None => Err(fault_in(alloc, exchange)),
    }
}

fn see_containers(alloc: Global, rows: &[Listed]) -> Result<Seen, Memory>
    ensures { IfOk result (λ seen. seen ≡ seen_containers rows.now) }
{
    Ok(Seen {
        containers: first_of_each(alloc, rows)?,
        networks: List::new(alloc),
        volumes: List::new(alloc),
        images: List::new(alloc),
    })
}

/// The rows of a listing, of several with one id the first alone.
fn first_of_each(alloc: Global, rows: &[Listed]) -> Result<List<Listed>, Memory>
    ensures { IfOk result (λ distinct. distinct ≡ first_of_each (λ row. row.id) rows.now) }
{
    let mut ids = TextMap::new(alloc);
    let mut distinct = List::new(alloc);
    for row in rows {
        keep_new(alloc, row, &mut ids, &mut distinct)?;
    }
    Ok(distinct)
}

fn keep_new(
    alloc: Global,
    row: &Listed,
    ids: &mut TextMap<()>,
    distinct: &mut List<Listed>,
) -> Result<(), Memory>
    ensures { (rows : List Listed) → distinct.old ≡ first_of_each (λ r. r.id) rows
        → keys_of ids.old ≡ map (λ r. r.id) distinct.old
        → OnOk result ((distinct.new ≡ first_of_each (λ r. r.id) (rows ++ row.now ∷ []))
        × (keys_of ids.new ≡ map (λ r. r.id) distinct.new)) }
{
    let was_known = put_key(alloc, ids, &row.id)?;
    if was_known {
        return Ok(());
    }
    let copy = row.copy(alloc)?;
    distinct.push(copy)?;
    Ok(())
}

/// Lists the networks where the project declares any.
fn list_networks<H: Hand>(
    alloc: Global,
    hand: &mut H,
    declared: &Declared,
    seen: Seen,
    exchanges: &mut ReservedList<Exchange>,
) -> Result<Seen, SeenFault>
    ensures { (purpose : Purpose)
        → Steps (listing_networks declared.now purpose seen)
        (listing_volumes declared.now purpose) result exchanges.old.items exchanges.new.items
        (standing (H.log hand.old) (H.engine hand.old) (H.heard hand.old)
        (H.faults hand.old) (H.clock hand.old))
        (standing (H.log hand.new) (H.engine hand.new) (H.heard hand.new)
        (H.faults hand.new) (H.clock hand.new)) }
{
    if declared.networks.is_empty() {
        return Ok(seen);
    }
    ask_for_networks(alloc, hand, seen, exchanges)
}

fn ask_for_networks<H: Hand>(
    alloc: Global,
    hand: &mut H,
    seen: Seen,
    exchanges: &mut ReservedList<Exchange>,
) -> Result<Seen, SeenFault>
    ensures { (declared : Declared) (purpose : Purpose)
        → Steps (asking Request.ListNetworks (after_networks declared purpose seen))
        (listing_volumes declared purpose)
        result exchanges.old.items exchanges.new.items
        (standing (H.log hand.old) (H.engine hand.old) (H.heard hand.old)
        (H.faults hand.old) (H.clock hand.old))
        (standing (H.log hand.new) (H.engine hand.new) (H.heard hand.new)
        (H.faults hand.new) (H.clock hand.new)) }
{
    let exchange = ask(alloc, hand, Request::ListNetworks, exchanges)?;
    let seen = read_networks(alloc, &exchange, seen);
    keep(exchanges, exchange);
    seen
}

fn read_networks(alloc: Global, exchange: &Exchange, seen: Seen) -> Result<Seen, SeenFault>
    ensures { (declared : Declared) (purpose : Purpose)
        → exchange.now.request ≡ Request.ListNetworks
        → Reads (after_networks declared purpose seen exchange.now.outcome)
        (listing_volumes declared purpose)
        exchange.now.request exchange.now.outcome result }
{
    match networks_told(&exchange.outcome) {
        Some(rows) => or_memory(see_networks(alloc, rows, seen)),
        None => Err(fault_in(alloc, exchange)),
    }
}

fn see_networks(alloc: Global, rows: &List<NetRow>, seen: Seen) -> Result<Seen, Memory>
    ensures { IfOk result (λ now. now ≡ record seen { networks = rows.now }) }
{
    match rows.copy(alloc) {
        Ok(networks) => Ok(Seen { networks, ..seen }),
        Err(memory) => {
            drop(seen);
            Err(memory)
        }
    }
}

/// Lists the volumes where the project declares any.
fn list_volumes<H: Hand>(
    alloc: Global,
    hand: &mut H,
    declared: &Declared,
    seen: Seen,
    exchanges: &mut ReservedList<Exchange>,
) -> Result<Seen, SeenFault>
    ensures { (purpose : Purpose)
        → Steps (listing_volumes declared.now purpose seen)
        (judging declared.now purpose) result exchanges.old.items exchanges.new.items
        (standing (H.log hand.old) (H.engine hand.old) (H.heard hand.old)
        (H.faults hand.old) (H.clock hand.old))
        (standing (H.log hand.new) (H.engine hand.new) (H.heard hand.new)
        (H.faults hand.new) (H.clock hand.new)) }
{
    if declared.volumes.is_empty() {
        return Ok(seen);
    }
    ask_for_volumes(alloc, hand, seen, exchanges)
}

fn ask_for_volumes<H: Hand>(
    alloc: Global,
    hand: &mut H,
    seen: Seen,
    exchanges: &mut ReservedList<Exchange>,
) -> Result<Seen, SeenFault>
    ensures { (declared : Declared) (purpose : Purpose)
        → Steps (asking Request.ListVolumes (after_volumes declared purpose seen))
        (judging declared purpose)
        result exchanges.old.items exchanges.new.items
        (standing (H.log hand.old) (H.engine hand.old) (H.heard hand.old)
        (H.faults hand.old) (H.clock hand.old))
        (standing (H.log hand.new) (H.engine hand.new) (H.heard hand.new)
        (H.faults hand.new) (H.clock hand.new)) }
{
    let exchange = ask(alloc, hand, Request::ListVolumes, exchanges)?;
    let seen = read_volumes(alloc, &exchange, seen);
    keep(exchanges, exchange);
    seen
}

fn read_volumes(alloc: Global, exchange: &Exchange, seen: Seen) -> Result<Seen, SeenFault>
    ensures { (declared : Declared) (purpose : Purpose)
        → exchange.now.request ≡ Request.ListVolumes
        → Reads (after_volumes declared purpose seen exchange.now.outcome)
        (judging declared purpose)
        exchange.now.request exchange.now.outcome result }
{
    match volumes_told(&exchange.outcome) {
        Some(names) => or_memory(see_volumes(alloc, names, seen)),
        None => Err(fault_in(alloc, exchange)),
    }
}

fn see_volumes(alloc: Global, names: &List<Text>, seen: Seen) -> Result<Seen, Memory>
    ensures { IfOk result (λ now. now ≡ record seen { volumes = names.now }) }
{
    match names.copy(alloc) {
        Ok(volumes) => Ok(Seen { volumes, ..seen }),
        Err(memory) => {
            drop(seen);
            Err(memory)
        }
    }
}
