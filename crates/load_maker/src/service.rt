ghost use Rattle.std.specs.Prelude.{◌≡◌, ◌++◌, IfOk, OnOk};
ghost use Rattle.std.specs.String.{string_bytes};
ghost use Rattle.load_maker.specs.Texts.{has_need, has_volume, image_and_network, mount_line, mounted_volume, need_line, needed_service, service_lines, three_digits};

use std::alloc::Global;
use tree_base::{Memory, Text};

/// Puts the lines of the service with a number last.
pub(crate) fn push_service(alloc: Global, text: &mut Text, service: u32) -> Result<(), Memory>
    ensures { OnOk result (text.new ≡ text.old ++ service_lines service) }
{
    push_image(alloc, text, service)?;
    push_mount(alloc, text, service)?;
    push_need(alloc, text, service)
}

/// Puts a service's key, its image and its network last.
#[tactic(auto, unfolding(crate::specs::Texts::image_and_network))]
fn push_image(alloc: Global, text: &mut Text, service: u32) -> Result<(), Memory>
    ensures { OnOk result (text.new ≡ text.old ++ image_and_network service) }
{
    let digits = three_digits(alloc, service)?;
    let image = service % 5;
    let network = service % 3;
    let lines = format!(in alloc;
        "  s{digits}:\n    image: img-{image}\n    networks: [n{network}]\n"
    )?;
    text.push_str(lines.as_str())
}

/// Puts the volume that a service mounts last, where it has one.
fn push_mount(alloc: Global, text: &mut Text, service: u32) -> Result<(), Memory>
    ensures { OnOk result (text.new ≡ text.old ++ mounted_volume service) }
{
    if has_volume(service) {
        push_mount_line(alloc, text, service)?;
    }
    Ok(())
}

fn push_mount_line(alloc: Global, text: &mut Text, service: u32) -> Result<(), Memory>
    ensures { OnOk result (text.new ≡ text.old ++ mount_line service) }
{
    let digits = three_digits(alloc, service)?;
    text.push_str("    volumes: [\"v")?;
    text.push_str(digits.as_str())?;
    text.push_str(":/d\"]\n")?;
    Ok(())
}

/// Puts the service that a service needs last, where it needs one.
fn push_need(alloc: Global, text: &mut Text, service: u32) -> Result<(), Memory>
    ensures { OnOk result (text.new ≡ text.old ++ needed_service service) }
{
    if has_need(service) {
        push_need_line(alloc, text, service)?;
    }
    Ok(())
}

fn push_need_line(alloc: Global, text: &mut Text, service: u32) -> Result<(), Memory>
    ensures { OnOk result (text.new ≡ text.old ++ need_line service) }
{
    let digits = three_digits(alloc, service / 2)?;
    text.push_str("    depends_on: [s")?;
    text.push_str(digits.as_str())?;
    text.push_str("]\n")?;
    Ok(())
}

/// Whether the service with a number has a volume.
pub(crate) fn has_volume(service: u32) -> bool
    ensures { result ≡ has_volume service }
{
    service % 4 == 0
}

/// Whether the service with a number needs another one.
fn has_need(service: u32) -> bool
    ensures { result ≡ has_need service }
{
    service >= 1
}

/// A number below a thousand with three digits.
pub(crate) fn three_digits(alloc: Global, number: u32) -> Result<String, Memory>
    ensures { IfOk result (λ digits. string_bytes digits ≡ three_digits number) }
{
    let hundreds = number / 100;
    let tens = number / 10 % 10;
    let ones = number % 10;
    let digits = format!(in alloc; "{hundreds}{tens}{ones}")?;
    Ok(digits)
}
