use crate::values::{integer_at, text_if};
use case_files::{Fields, Reading};
use engine_types::{Device, Endpoint, PortBinding, PortBindings, Ulimit};
use tree_base::{List, Text, Tree};

/// The limits under `ulimits`, each with its `name`, `soft` and `hard`; None where the key isn't there.
pub(crate) fn ulimits_if(reading: &mut Reading, fields: &Fields) -> Option<List<Ulimit>> {
    if !fields.has("ulimits") {
        return None;
    }
    let mut limits = List::new(reading.alloc);
    for item in reading.items(fields, "ulimits") {
        push_ulimit(reading, item, &mut limits);
    }
    Some(limits)
}

fn push_ulimit(reading: &mut Reading, tree: &Tree, to: &mut List<Ulimit>) {
    if let Some(fields) = reading.fields_of(tree, "ulimits") {
        let limit = Ulimit {
            name: reading.text_at(&fields, "name"),
            soft: integer_at(reading, &fields, "soft"),
            hard: integer_at(reading, &fields, "hard"),
        };
        reading.push(to, limit);
    }
}

/// The devices under `devices`, each with its `path_on_host`, `path_in_container` and `cgroup_permissions`; None where
/// the key isn't there.
pub(crate) fn devices_if(reading: &mut Reading, fields: &Fields) -> Option<List<Device>> {
    if !fields.has("devices") {
        return None;
    }
    let mut devices = List::new(reading.alloc);
    for item in reading.items(fields, "devices") {
        push_device(reading, item, &mut devices);
    }
    Some(devices)
}

fn push_device(reading: &mut Reading, tree: &Tree, to: &mut List<Device>) {
    if let Some(fields) = reading.fields_of(tree, "devices") {
        let device = Device {
            path_on_host: reading.text_at(&fields, "path_on_host"),
            path_in_container: reading.text_at(&fields, "path_in_container"),
            cgroup_permissions: reading.text_at(&fields, "cgroup_permissions"),
        };
        reading.push(to, device);
    }
}

/// The ports under `port_bindings`, each with its rows of `host_ip` and `host_port`; None where the key isn't there.
pub(crate) fn port_bindings_if(
    reading: &mut Reading,
    fields: &Fields,
) -> Option<List<PortBindings>> {
    let ports = reading.fields(fields, "port_bindings")?;
    let mut bindings = List::new(reading.alloc);
    for key in ports.entries().keys() {
        push_port(reading, &ports, key, &mut bindings);
    }
    Some(bindings)
}

fn push_port(reading: &mut Reading, ports: &Fields, key: &Text, to: &mut List<PortBindings>) {
    let mut bindings = List::new(reading.alloc);
    for item in reading.items(ports, key.as_str()) {
        push_binding(reading, item, &mut bindings);
    }
    let port = PortBindings {
        key: reading.text(key.as_str()),
        bindings,
    };
    reading.push(to, port);
}

fn push_binding(reading: &mut Reading, tree: &Tree, to: &mut List<PortBinding>) {
    if let Some(fields) = reading.fields_of(tree, "port_bindings") {
        let binding = PortBinding {
            host_ip: text_if(reading, &fields, "host_ip"),
            host_port: text_if(reading, &fields, "host_port"),
        };
        reading.push(to, binding);
    }
}

/// The networks under `endpoints_config`, each with its aliases; None where the key isn't there.
pub(crate) fn endpoints_if(reading: &mut Reading, fields: &Fields) -> Option<List<Endpoint>> {
    let networks = reading.fields(fields, "endpoints_config")?;
    let mut endpoints = List::new(reading.alloc);
    for key in networks.entries().keys() {
        push_endpoint(reading, &networks, key, &mut endpoints);
    }
    Some(endpoints)
}

fn push_endpoint(reading: &mut Reading, networks: &Fields, key: &Text, to: &mut List<Endpoint>) {
    let endpoint = Endpoint {
        key: reading.text(key.as_str()),
        aliases: reading.texts(networks, key.as_str()),
    };
    reading.push(to, endpoint);
}
