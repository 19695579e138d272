ghost use Rattle.std.specs.Prelude.{◌≡◌, ◌++◌, IfOk, OnOk, filter, map};
ghost use Rattle.std.specs.Str.{bytes_eq};
ghost use Rattle.container_specs.specs.Lists.{each_once};
ghost use Rattle.container_specs.specs.Ports.{binding_of, bindings_at, exposed_of, exposed_ports_of, port_bindings_of, port_key, ports_in};

use crate::lists::{each_once, items_of, joined, unless_empty};
use engine_types::{PortBinding, PortBindings};
use short_forms::{Port, cut_text};
use std::alloc::Global;
use tree_base::{List, Memory, Text, TryCopy};
use typed_project::Service;

/// The ports that are told to other services and those that are bound, as one set in byte order.
pub(crate) fn exposed_ports_of(
    alloc: Global,
    service: &Service,
) -> Result<Option<List<Text>>, Memory>
    ensures { IfOk result (λ ports. ports ≡ exposed_ports_of service.now.attributes) }
{
    let mut ports = List::new(alloc);
    put_exposed(alloc, items_of(service.expose()), &mut ports)?;
    put_keys(alloc, items_of(service.ports()), &mut ports)?;
    let ports = each_once(alloc, ports.as_slice())?;
    Ok(unless_empty(ports))
}

fn put_exposed(alloc: Global, texts: &[Text], ports: &mut List<Text>) -> Result<(), Memory>
    ensures { OnOk result (ports.new ≡ ports.old ++ map exposed_of texts.now) }
{
    for text in texts {
        ports.push(exposed_of(alloc, text)?)?;
    }
    Ok(())
}

/// A port with its protocol; one without is of `tcp`.
fn exposed_of(alloc: Global, text: &Text) -> Result<Text, Memory>
    ensures { IfOk result (λ port. port ≡ exposed_of text.now) }
{
    match cut_text(text.as_str(), '/') {
        None => joined(alloc, text.as_str(), "/tcp", ""),
        Some(_) => text.copy(alloc),
    }
}

fn put_keys(alloc: Global, ports: &[Port], keys: &mut List<Text>) -> Result<(), Memory>
    ensures { OnOk result (keys.new ≡ keys.old ++ map port_key ports.now) }
{
    for port in ports {
        keys.push(port_key(alloc, port)?)?;
    }
    Ok(())
}

/// A port of the container with its protocol.
fn port_key(alloc: Global, port: &Port) -> Result<Text, Memory>
    ensures { IfOk result (λ key. key ≡ port_key port.now) }
{
    let target = port.target;
    let protocol = &port.protocol;
    let key = format!(in alloc; "{target}/{protocol}")?;
    Ok(Text::from_string(key))
}

/// Where the ports are bound, in byte order of their keys.
pub(crate) fn port_bindings_of(
    alloc: Global,
    service: &Service,
) -> Result<Option<List<PortBindings>>, Memory>
    ensures { IfOk result (λ bindings.
        bindings ≡ port_bindings_of (ports_in service.now.attributes)) }
{
    let bindings = bindings_of(alloc, items_of(service.ports()))?;
    Ok(unless_empty(bindings))
}

fn bindings_of(alloc: Global, ports: &[Port]) -> Result<List<PortBindings>, Memory>
    ensures { IfOk result (λ bindings.
        bindings ≡ map (bindings_at ports.now) (each_once (map port_key ports.now))) }
{
    let mut keys = List::new(alloc);
    put_keys(alloc, ports, &mut keys)?;
    let distinct = each_once(alloc, keys.as_slice())?;
    bindings_at_each(alloc, ports, keys.as_slice(), distinct.as_slice())
}

/// Where the ports are bound at each of some keys.
fn bindings_at_each(
    alloc: Global,
    ports: &[Port],
    keys: &[Text],
    distinct: &[Text],
) -> Result<List<PortBindings>, Memory>
    requires { keys.now ≡ map port_key ports.now }
    ensures { IfOk result (λ bindings. bindings ≡ map (bindings_at ports.now) distinct.now) }
{
    let mut bindings = List::new(alloc);
    for key in distinct {
        bindings.push(bindings_at(alloc, ports, keys, key)?)?;
    }
    Ok(bindings)
}

/// Where the ports of a key are bound, by the keys of all ports.
fn bindings_at(
    alloc: Global,
    ports: &[Port],
    keys: &[Text],
    key: &Text,
) -> Result<PortBindings, Memory>
    requires { keys.now ≡ map port_key ports.now }
    ensures { IfOk result (λ bindings. bindings ≡ bindings_at ports.now key.now) }
{
    let bindings = rows_at(alloc, ports, keys, key)?;
    Ok(PortBindings {
        key: key.copy(alloc)?,
        bindings,
    })
}

fn rows_at(
    alloc: Global,
    ports: &[Port],
    keys: &[Text],
    key: &Text,
) -> Result<List<PortBinding>, Memory>
    requires { keys.now ≡ map port_key ports.now }
    ensures { IfOk result (λ rows.
        rows ≡ map binding_of (filter (λ port. bytes_eq (port_key port) key.now) ports.now)) }
{
    let mut rows = List::new(alloc);
    for (at, port) in ports.iter().enumerate() {
        if keys[at] == *key {
            rows.push(binding_of(alloc, port)?)?;
        }
    }
    Ok(rows)
}

fn binding_of(alloc: Global, port: &Port) -> Result<PortBinding, Memory>
    ensures { IfOk result (λ binding. binding ≡ binding_of port.now) }
{
    Ok(PortBinding {
        host_ip: port.host_ip.copy(alloc)?,
        host_port: port.published.copy(alloc)?,
    })
}
