ghost use Rattle.std.specs.Prelude.{◌≡◌, ◌&&◌, not, filter, slice_get, is_some, Some, IfOk};
ghost use Rattle.std.specs.Option.{option_copied};
ghost use Rattle.std.specs.Str.{bytes_eq};
ghost use Rattle.engine_types.specs.Labels.{project_label};
ghost use Rattle.run_model.specs.EngineRules.{has_label};
ghost use Rattle.run_model.specs.Observation.{network_fault};
ghost use Rattle.tree_base.specs.ByteOrder.{by_key};
ghost use Rattle.engine_types.specs.declared.SeenFault.{SeenFault};
ghost use Rattle.observe_project.specs.LeastRows.{fault_by, first_named, first_with, foreign_fault, missing_fault, second_named, second_with};

use crate::judging::{external_missing, is_up};
use engine_types::{Declared, Kind, NetRow, NetworkSpec, Purpose, SeenFault, labels};
use run_lookups::has_label;
use std::alloc::Global;
use tree_base::{Memory, Text};

/// What is wrong with a declared network, by the listed rows of its name.
pub(crate) fn network_fault(
    alloc: Global,
    declared: &Declared,
    purpose: Purpose,
    rows: &[NetRow],
    network: &NetworkSpec,
) -> Result<Option<SeenFault>, Memory>
    ensures { IfOk result (λ fault.
        fault ≡ network_fault declared.now purpose rows.now network.now) }
{
    let least = two_least(rows, &network.name);
    fault_by(alloc, declared, purpose, network, least.first, least.second)
}

fn fault_by(
    alloc: Global,
    declared: &Declared,
    purpose: Purpose,
    network: &NetworkSpec,
    first: Option<&NetRow>,
    second: Option<&NetRow>,
) -> Result<Option<SeenFault>, Memory>
    ensures { IfOk result (λ fault.
        fault ≡ fault_by declared.now purpose network.now (option_copied first.entry)
        (option_copied second.entry)) }
{
    let Some(row) = first else {
        return missing(alloc, purpose, network);
    };
    match second {
        None => foreign(alloc, declared, network, row),
        Some(other) => twice(alloc, network, row, other),
    }
}

/// Whether something is wrong with a declared network.
pub(crate) fn is_bad(
    declared: &Declared,
    purpose: Purpose,
    rows: &[NetRow],
    network: &NetworkSpec,
) -> bool
    ensures { result ≡ is_some (network_fault declared.now purpose rows.now network.now) }
{
    let least = two_least(rows, &network.name);
    is_bad_by(declared, purpose, network, least.first, least.second)
}

fn is_bad_by(
    declared: &Declared,
    purpose: Purpose,
    network: &NetworkSpec,
    first: Option<&NetRow>,
    second: Option<&NetRow>,
) -> bool
    ensures { result ≡ is_some (fault_by declared.now purpose network.now
        (option_copied first.entry) (option_copied second.entry)) }
{
    let Some(row) = first else {
        return network.external && is_up(purpose);
    };
    second.is_some() || is_foreign(declared, network, row)
}

/// The rows of a network's name with the two least ids.
#[derive(Clone, Copy)]
struct Least<'r> {
    first: Option<&'r NetRow>,
    second: Option<&'r NetRow>,
}

fn two_least<'r>(rows: &'r [NetRow], name: &Text) -> Least<'r>
    ensures first { option_copied result.first ≡
        slice_get (by_key (λ row. row.id)
        (filter (λ row. bytes_eq name.now row.name) rows.now)) 0 }
    ensures second { option_copied result.second ≡
        slice_get (by_key (λ row. row.id)
        (filter (λ row. bytes_eq name.now row.name) rows.now)) 1 }
{
    let mut least = Least {
        first: None,
        second: None,
    };
    let mut at = rows.len();
    while at > 0 {
        at -= 1;
        least = with_named(least, &rows[at], name);
    }
    least
}

fn with_named<'r>(least: Least<'r>, row: &'r NetRow, name: &Text) -> Least<'r>
    ensures first { option_copied result.first ≡
        first_named name.now row.now (option_copied least.entry.first) }
    ensures second { option_copied result.second ≡
        second_named name.now row.now (option_copied least.entry.first)
        (option_copied least.entry.second) }
{
    if *name == row.name {
        Least {
            first: first_with(row, least.first),
            second: second_with(row, least.first, least.second),
        }
    } else {
        least
    }
}

fn first_with<'r>(row: &'r NetRow, first: Option<&'r NetRow>) -> Option<&'r NetRow>
    ensures { option_copied result ≡ first_with row.now (option_copied first.entry) }
{
    match first {
        Some(first) => {
            if first.id < row.id {
                Some(first)
            } else {
                Some(row)
            }
        }
        None => Some(row),
    }
}

fn second_with<'r>(
    row: &'r NetRow,
    first: Option<&'r NetRow>,
    second: Option<&'r NetRow>,
) -> Option<&'r NetRow>
    ensures { option_copied result ≡
        second_with row.now (option_copied first.entry) (option_copied second.entry) }
{
    match first {
        Some(first) => {
            if first.id < row.id {
                first_with(row, second)
            } else {
                Some(first)
            }
        }
        None => None,
    }
}

fn missing(
    alloc: Global,
    purpose: Purpose,
    network: &NetworkSpec,
) -> Result<Option<SeenFault>, Memory>
    ensures { IfOk result (λ fault. fault ≡ missing_fault purpose network.now) }
{
    if network.external && is_up(purpose) {
        external_missing(alloc, Kind::Network, &network.name)
    } else {
        Ok(None)
    }
}

fn foreign(
    alloc: Global,
    declared: &Declared,
    network: &NetworkSpec,
    row: &NetRow,
) -> Result<Option<SeenFault>, Memory>
    ensures { IfOk result (λ fault. fault ≡ foreign_fault declared.now network.now row.now) }
{
    if !is_foreign(declared, network, row) {
        return Ok(None);
    }
    Ok(Some(SeenFault::ForeignNetwork {
        name: network.name.copy(alloc)?,
        id: row.id.copy(alloc)?,
    }))
}

/// Whether a declared network that is there is another project's.
fn is_foreign(declared: &Declared, network: &NetworkSpec, row: &NetRow) -> bool
    ensures { result ≡ (not network.now.external && not
        (has_label row.now.labels project_label declared.now.project)) }
{
    !network.external && !has_label(&row.labels, labels::PROJECT, declared.project.as_str())
}

fn twice(
    alloc: Global,
    network: &NetworkSpec,
    first: &NetRow,
    second: &NetRow,
) -> Result<Option<SeenFault>, Memory>
    ensures { IfOk result (λ fault.
        fault ≡ Some (SeenFault.NetworkTwice network.now.name first.now.id second.now.id)) }
{
    Ok(Some(SeenFault::NetworkTwice {
        name: network.name.copy(alloc)?,
        first: first.id.copy(alloc)?,
        second: second.id.copy(alloc)?,
    }))
}
