ghost use Rattle.std.specs.Prelude.{◌≡◌, ◌++◌, OnOk};
ghost use Rattle.load_maker.specs.Texts.{network_line, network_lines, service_lines, services_text, volume_line, volume_lines};

use crate::service::{has_volume, push_service, three_digits};
use std::alloc::Global;
use tree_base::{Memory, Text};

/// How many networks services take in turn.
const NETWORKS: u32 = 3;

/// Puts the lines of so many services last.
pub(crate) fn push_services(alloc: Global, text: &mut Text, number: u32) -> Result<(), Memory>
    ensures { OnOk result (text.new ≡ text.old ++ services_text number) }
{
    for service in 0..number {
        push_service(alloc, text, service)?;
    }
    Ok(())
}

/// Puts the lines of the networks of so many services last.
pub(crate) fn push_networks(alloc: Global, text: &mut Text, number: u32) -> Result<(), Memory>
    ensures { OnOk result (text.new ≡ text.old ++ network_lines number) }
{
    for network in 0..NETWORKS {
        push_network(alloc, text, number, network)?;
    }
    Ok(())
}

/// Puts the lines of the volumes of so many services last.
pub(crate) fn push_volumes(alloc: Global, text: &mut Text, number: u32) -> Result<(), Memory>
    ensures { OnOk result (text.new ≡ text.old ++ volume_lines number) }
{
    for service in 0..number {
        push_volume(alloc, text, service)?;
    }
    Ok(())
}

/// Puts the line of a network last, where so many services use it.
fn push_network(alloc: Global, text: &mut Text, number: u32, network: u32) -> Result<(), Memory>
    ensures { OnOk result (text.new ≡ text.old ++ network_line number network) }
{
    if network < number {
        let line = format!(in alloc; "  n{network}:\n")?;
        text.push_str(line.as_str())?;
    }
    Ok(())
}

/// Puts the line of a service's volume last, where it has one.
fn push_volume(alloc: Global, text: &mut Text, service: u32) -> Result<(), Memory>
    ensures { OnOk result (text.new ≡ text.old ++ volume_line service) }
{
    if has_volume(service) {
        let digits = three_digits(alloc, service)?;
        let line = format!(in alloc; "  v{digits}:\n")?;
        text.push_str(line.as_str())?;
    }
    Ok(())
}
