ghost use Rattle.std.specs.Prelude.{◌≡◌, ◌++◌, ◌∷◌, [], IfOk, OnOk, codes, map};
ghost use Rattle.std.specs.Option.{option_map_or};
ghost use Rattle.short_forms.specs.Cuts.{cut_once};
ghost use Rattle.container_specs.specs.Host.{bare_address, closed_in, device_behind, device_of, devices_of, extra_hosts_of, host_of, limit_of, ulimits_of};
ghost use Rattle.container_specs.specs.Lists.{named_pairs, unless_empty, vars_of};

use crate::lists::{items_of, joined, text_of, unless_empty, vars_of};
use attribute_types::{Pairs, Ulimit};
use engine_types::Device;
use short_forms::cut_text;
use std::alloc::Global;
use tree_base::{List, Memory, Text, Var};
use typed_project::Service;

/// The further hosts, each as `HOST:ADDRESS`, in byte order of the hosts.
pub(crate) fn extra_hosts_of(alloc: Global, service: &Service) -> Result<Option<List<Text>>, Memory>
    ensures { IfOk result (λ hosts. hosts ≡ extra_hosts_of service.now.attributes) }
{
    match service.extra_hosts() {
        Some(pairs) => Ok(unless_empty(hosts_of(alloc, pairs)?)),
        None => Ok(None),
    }
}

fn hosts_of(alloc: Global, pairs: &Pairs) -> Result<List<Text>, Memory>
    ensures { IfOk result (λ hosts. hosts ≡ map host_of pairs.now) }
{
    let mut hosts = List::new(alloc);
    for at in 0..pairs.len() {
        put_host(alloc, pairs.pair(at), &mut hosts)?;
    }
    Ok(hosts)
}

fn put_host(
    alloc: Global,
    pair: Option<(&Text, &Option<Text>)>,
    hosts: &mut List<Text>,
) -> Result<(), Memory>
    ensures { OnOk result (hosts.new ≡
        hosts.old ++ option_map_or (λ p. host_of (p.0.now, p.1.now) ∷ []) pair.entry []) }
{
    match pair {
        Some((name, address)) => {
            let bare = bare_address(text_of(address));
            hosts.push(joined(alloc, name.as_str(), ":", bare)?)
        }
        None => Ok(()),
    }
}

/// An address without brackets around it: the Engine takes one of IPv6 as it is. No memory.
fn bare_address(address: &str) -> &str
    ensures { result.now ≡ bare_address address.now }
{
    match cut_text(address, '[') {
        Some((before, rest)) if before.is_empty() => closed_in(address, rest),
        _ => address,
    }
}

/// What stands before the `]` that ends an address, of what stands behind its first bracket.
fn closed_in<'a>(address: &'a str, rest: &'a str) -> &'a str
    ensures { result.now ≡ closed_in address.now (cut_once 93 rest.now) }
{
    match cut_text(rest, ']') {
        Some((inner, behind)) if behind.is_empty() => inner,
        _ => address,
    }
}

/// The kernel parameters.
pub(crate) fn sysctls_of(alloc: Global, service: &Service) -> Result<Option<List<Var>>, Memory>
    ensures { IfOk result (λ vars.
        vars ≡ unless_empty (vars_of (named_pairs service.now.attributes (codes "sysctls")))) }
{
    match service.sysctls() {
        Some(pairs) => Ok(unless_empty(vars_of(alloc, pairs)?)),
        None => Ok(None),
    }
}

/// The devices.
pub(crate) fn devices_of(alloc: Global, service: &Service) -> Result<Option<List<Device>>, Memory>
    ensures { IfOk result (λ devices. devices ≡ devices_of service.now.attributes) }
{
    let devices = devices_in(alloc, items_of(service.devices()))?;
    Ok(unless_empty(devices))
}

fn devices_in(alloc: Global, texts: &[Text]) -> Result<List<Device>, Memory>
    ensures { IfOk result (λ devices. devices ≡ map device_of texts.now) }
{
    let mut devices = List::new(alloc);
    for text in texts {
        devices.push(device_of(alloc, text.as_str())?)?;
    }
    Ok(devices)
}

/// The device of a text, by its path on the host alone, or with what stands behind the first colon.
fn device_of(alloc: Global, text: &str) -> Result<Device, Memory>
    ensures { IfOk result (λ device. device ≡ device_of text.now) }
{
    match cut_text(text, ':') {
        None => device(alloc, text, text, "rwm"),
        Some((host, rest)) => device_behind(alloc, host, rest),
    }
}

fn device_behind(alloc: Global, host: &str, rest: &str) -> Result<Device, Memory>
    ensures { IfOk result (λ device. device
        ≡ device_behind host.now rest.now (cut_once 58 rest.now)) }
{
    match cut_text(rest, ':') {
        None => device(alloc, host, rest, "rwm"),
        Some((path, permissions)) => device(alloc, host, path, permissions),
    }
}

fn device(alloc: Global, host: &str, path: &str, permissions: &str) -> Result<Device, Memory>
    ensures { IfOk result (λ device. device ≡ record {
      path_on_host = host.now;
      path_in_container = path.now;
      cgroup_permissions = permissions.now;
    }) }
{
    Ok(Device {
        path_on_host: Text::from_str(alloc, host)?,
        path_in_container: Text::from_str(alloc, path)?,
        cgroup_permissions: Text::from_str(alloc, permissions)?,
    })
}

/// The limits of the container's processes.
pub(crate) fn ulimits_of(
    alloc: Global,
    service: &Service,
) -> Result<Option<List<engine_types::Ulimit>>, Memory>
    ensures { IfOk result (λ limits. limits ≡ ulimits_of service.now.attributes) }
{
    let limits = limits_in(alloc, items_of(service.ulimits()))?;
    Ok(unless_empty(limits))
}

fn limits_in(alloc: Global, limits: &[Ulimit]) -> Result<List<engine_types::Ulimit>, Memory>
    ensures { IfOk result (λ made. made ≡ map limit_of limits.now) }
{
    let mut made = List::new(alloc);
    for limit in limits {
        made.push(limit_of(alloc, limit)?)?;
    }
    Ok(made)
}

fn limit_of(alloc: Global, limit: &Ulimit) -> Result<engine_types::Ulimit, Memory>
    ensures { IfOk result (λ made. made ≡ limit_of limit.now) }
{
    Ok(engine_types::Ulimit {
        name: limit.key.copy(alloc)?,
        soft: limit.soft,
        hard: limit.hard,
    })
}
