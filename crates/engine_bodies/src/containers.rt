ghost use Rattle.std.specs.Prelude.{◌≡◌, IfOk};
ghost use Rattle.std.specs.Option.{option_map};
ghost use Rattle.serde_json.specs.View.{view};
ghost use Rattle.engine_bodies.specs.Containers.{container_value, networking_value};

use crate::hosts::host_json;
use crate::objects::Object;
use engine_types::{ContainerSpec, Endpoint};
use serde_json::Value;
use std::alloc::Global;
use tree_base::{List, Memory};

/// The body of `POST /containers/create` as a value of JSON.
pub(crate) fn container_json(alloc: Global, spec: &ContainerSpec) -> Result<Value, Memory>
    ensures { IfOk result (λ value. view value ≡ container_value spec.now) }
{
    let mut container = Object::new(alloc);
    container.option("Cmd", &spec.cmd);
    container.option("Domainname", &spec.domainname);
    container.option("Entrypoint", &spec.entrypoint);
    container.option("Env", &spec.env);
    container.set_if("ExposedPorts", &spec.exposed_ports);
    container.option("Healthcheck", &spec.healthcheck);
    container.made_if("HostConfig", host_json(alloc, spec));
    container.option("Hostname", &spec.hostname);
    container.option("Image", &spec.image);
    container.mapping("Labels", &spec.labels);
    container.made_if(
        "NetworkingConfig",
        networking_json(alloc, &spec.endpoints_config),
    );
    container.option("OpenStdin", &spec.open_stdin);
    container.option("StopSignal", &spec.stop_signal);
    container.option("StopTimeout", &spec.stop_timeout);
    container.option("Tty", &spec.tty);
    container.option("User", &spec.user);
    container.set_if("Volumes", &spec.volumes);
    container.option("WorkingDir", &spec.working_dir);
    container.end()
}

/// The networks that are joined as a value of JSON, where any is said.
fn networking_json(
    alloc: Global,
    endpoints: &Option<List<Endpoint>>,
) -> Result<Option<Value>, Memory>
    ensures { IfOk result (λ value.
        option_map view value ≡ option_map networking_value endpoints.now) }
{
    match endpoints {
        Some(endpoints) => Ok(Some(endpoints_json(alloc, endpoints)?)),
        None => Ok(None),
    }
}

/// The networks that are joined as a value of JSON.
fn endpoints_json(alloc: Global, endpoints: &List<Endpoint>) -> Result<Value, Memory>
    ensures { IfOk result (λ value. view value ≡ networking_value endpoints.now) }
{
    let mut networking = Object::new(alloc);
    networking.mapping("EndpointsConfig", endpoints);
    networking.end()
}
