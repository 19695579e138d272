ghost use Rattle.std.specs.Prelude.{◌≡◌, IfOk};
ghost use Rattle.serde_json.specs.View.{view};
ghost use Rattle.engine_bodies.specs.Resources.{connect_value, network_value, volume_value};

use crate::objects::Object;
use crate::rows::endpoint_json;
use engine_types::{NetworkSpec, VolumeSpec};
use serde_json::Value;
use std::alloc::Global;
use tree_base::{List, Memory, Text};

/// The body of `POST /networks/create` as a value of JSON. It asks older Engines to refuse a second network of one name;
/// newer ones always do.
pub(crate) fn network_json(alloc: Global, spec: &NetworkSpec) -> Result<Value, Memory>
    ensures { IfOk result (λ value. view value ≡ network_value spec.now) }
{
    let mut network = Object::new(alloc);
    network.option("Attachable", &spec.attachable);
    network.value("CheckDuplicate", &true);
    network.option("Driver", &spec.driver);
    network.option("EnableIPv6", &spec.enable_ipv6);
    network.option("Internal", &spec.internal);
    network.mapping("Labels", &spec.labels);
    network.value("Name", &spec.name);
    network.mapping_if("Options", &spec.options);
    network.end()
}

/// The body of `POST /volumes/create` as a value of JSON.
pub(crate) fn volume_json(alloc: Global, spec: &VolumeSpec) -> Result<Value, Memory>
    ensures { IfOk result (λ value. view value ≡ volume_value spec.now) }
{
    let mut volume = Object::new(alloc);
    volume.option("Driver", &spec.driver);
    volume.mapping_if("DriverOpts", &spec.driver_opts);
    volume.mapping("Labels", &spec.labels);
    volume.value("Name", &spec.name);
    volume.end()
}

/// The body of `POST /networks/{id}/connect` as a value of JSON.
pub(crate) fn connect_json(
    alloc: Global,
    container: &Text,
    aliases: &List<Text>,
) -> Result<Value, Memory>
    ensures { IfOk result (λ value. view value ≡ connect_value container.now aliases.now) }
{
    let mut connect = Object::new(alloc);
    connect.value("Container", container);
    connect.made("EndpointConfig", endpoint_json(alloc, aliases));
    connect.end()
}
