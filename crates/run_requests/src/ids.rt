ghost use Rattle.std.specs.Prelude.{◌≡◌, IfOk, find, option_map};
ghost use Rattle.std.specs.Option.{option_copied};
ghost use Rattle.std.specs.Str.{bytes_eq};
ghost use Rattle.run_requests.specs.Asking.{created_id, network_id_by, slot_id_by};
ghost use Rattle.run_requests.specs.Setups.{setup_of};

use crate::run::Run;
use crate::told::ToldIds;
use engine_types::Seen;
use std::alloc::Global;
use tree_base::{Memory, Text};

/// The id of a slot's container: that of the kept one, else what its create was told.
pub(crate) fn slot_id<T: ToldIds>(
    alloc: Global,
    ids: &T,
    slot: u32,
) -> Result<Option<&Text>, Memory>
    ensures { IfOk result (λ id. option_copied id ≡ slot_id_by (T.ids ids.now) slot) }
{
    match ids.kept(alloc, slot)? {
        Some(row) => Ok(Some(&row.id)),
        None => Ok(created_id(ids, slot)),
    }
}

/// What the create of a slot's container was told.
fn created_id<T: ToldIds>(ids: &T, slot: u32) -> Option<&Text>
    ensures { option_copied result ≡ created_id (T.ids ids.now) slot }
{
    let create = ids.creator(slot)?;
    ids.told(create)
}

/// The id of a declared network: what its make was told, else the one that was seen.
pub(crate) fn network_id<'a, T: ToldIds>(
    run: &Run<'a>,
    ids: &'a T,
    network: u32,
) -> Option<&'a Text>
    ensures { option_copied result ≡ network_id_by (setup_of run.now) (T.ids ids.now) network }
{
    match ids.maker(network) {
        Some(make) => ids.told(make),
        None => seen_network_id(run.seen, &run.declared.networks.get(network as usize)?.name),
    }
}

/// The id of the first network of a name that was seen.
fn seen_network_id<'a>(seen: &'a Seen, name: &Text) -> Option<&'a Text>
    ensures { option_copied result ≡
        option_map (λ row. row.id) (find (λ row. bytes_eq row.name name.now) seen.now.networks) }
{
    let row = seen
        .networks
        .as_slice()
        .iter()
        .find(|row| row.name == *name)?;
    Some(&row.id)
}
