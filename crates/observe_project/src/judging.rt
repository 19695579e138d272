ghost use Rattle.std.specs.Prelude.{◌≡◌, None, Some, ℕ, IfOk, IfErr, Option, List, find, is_some};
ghost use Rattle.std.specs.List.{list_any};
ghost use Rattle.std.specs.Option.{option_copied};
ghost use Rattle.std.specs.Str.{bytes_eq};
ghost use Rattle.engine_types.specs.declared.SeenFault.{SeenFault};
ghost use Rattle.outside_api.specs.Hands.{Heard};
ghost use Rattle.run_model.specs.Observation.{after_judging, first_in, is_up, judging, listing_fault, network_fault, volume_fault};
ghost use Rattle.observe_project.specs.Exchanges.{HasCauseOfFault};
ghost use Rattle.observe_project.specs.Reading.{is_missing};
ghost use Rattle.observe_project.specs.Steps.{Leads};

use crate::networks::{is_bad, network_fault};
use engine_types::{Declared, Kind, NetRow, NetworkSpec, Purpose, Seen, SeenFault, VolumeSpec};
use std::alloc::Global;
use tree_base::{Memory, Text};

/// Judges what was listed, and gives it back where nothing is wrong with it.
pub(crate) fn judge(
    alloc: Global,
    declared: &Declared,
    purpose: Purpose,
    seen: Seen,
) -> Result<Seen, SeenFault>
    ensures leads { Leads (judging declared.now purpose seen)
        (λ s. after_judging declared.now purpose s None) result }
    ensures cause { (heard : Option (List Heard)) (old new : ℕ)
        → IfErr result (HasCauseOfFault heard old new) }
{
    match listing_fault(alloc, declared, purpose, &seen) {
        Ok(None) => Ok(seen),
        Ok(Some(fault)) => Err(fault),
        Err(_) => Err(SeenFault::Memory),
    }
}

fn listing_fault(
    alloc: Global,
    declared: &Declared,
    purpose: Purpose,
    seen: &Seen,
) -> Result<Option<SeenFault>, Memory>
    ensures { IfOk result (λ fault. fault ≡ listing_fault declared.now purpose seen.now) }
{
    let rows = seen.networks.as_slice();
    match bad_network(declared, purpose, rows) {
        Some(network) => network_fault(alloc, declared, purpose, rows, network),
        None => volumes_fault(alloc, declared, purpose, seen.volumes.as_slice()),
    }
}

/// The first declared network that something is wrong with.
fn bad_network<'d>(
    declared: &'d Declared,
    purpose: Purpose,
    rows: &[NetRow],
) -> Option<&'d NetworkSpec>
    ensures { option_copied result ≡
        find (λ network. is_some
        (network_fault declared.now purpose rows.now network)) declared.now.networks }
{
    first_bad(declared, purpose, rows, declared.networks.as_slice())
}

fn first_bad<'d>(
    declared: &Declared,
    purpose: Purpose,
    rows: &[NetRow],
    networks: &'d [NetworkSpec],
) -> Option<&'d NetworkSpec>
    ensures { option_copied result ≡
        find (λ network. is_some
        (network_fault declared.now purpose rows.now network)) networks.now }
{
    networks
        .iter()
        .find(|network| is_bad(declared, purpose, rows, network))
}

fn volumes_fault(
    alloc: Global,
    declared: &Declared,
    purpose: Purpose,
    names: &[Text],
) -> Result<Option<SeenFault>, Memory>
    ensures { IfOk result (λ fault.
        fault ≡ first_in (volume_fault purpose names.now) declared.now.volumes) }
{
    match first_missing(purpose, names, declared.volumes.as_slice()) {
        Some(volume) => external_missing(alloc, Kind::Volume, &volume.name),
        None => Ok(None),
    }
}

/// The first external volume that is missing for `up`.
fn first_missing<'d>(
    purpose: Purpose,
    names: &[Text],
    volumes: &'d [VolumeSpec],
) -> Option<&'d VolumeSpec>
    ensures { option_copied result ≡
        find (λ volume. is_missing purpose names.now volume) volumes.now }
{
    volumes
        .iter()
        .find(|volume| is_missing(purpose, names, volume))
}

fn is_missing(purpose: Purpose, names: &[Text], volume: &VolumeSpec) -> bool
    ensures { result ≡ is_missing purpose names.now volume.now }
{
    volume.external && is_up(purpose) && !is_listed(names, &volume.name)
}

/// That an external network or volume is missing.
pub(crate) fn external_missing(
    alloc: Global,
    kind: Kind,
    name: &Text,
) -> Result<Option<SeenFault>, Memory>
    ensures { IfOk result (λ fault.
        fault ≡ Some (SeenFault.ExternalMissing kind name.now)) }
{
    let name = name.copy(alloc)?;
    Ok(Some(SeenFault::ExternalMissing { kind, name }))
}

fn is_listed(names: &[Text], name: &Text) -> bool
    ensures { result ≡ list_any (bytes_eq name.now) names.now }
{
    names.iter().any(|other| *name == *other)
}

/// Whether the project is to be brought up. No memory.
pub fn is_up(purpose: Purpose) -> bool
    ensures { result ≡ is_up purpose }
{
    match purpose {
        Purpose::Up => true,
        Purpose::Down => false,
    }
}
