ghost use Rattle.std.specs.Prelude.{◌≡◌, IfOk};
ghost use Rattle.serde_json.specs.Data.{string};
ghost use Rattle.serde_json.specs.View.{view};
ghost use Rattle.engine_bodies.specs.Containers.{device_value, endpoint_value, healthcheck_value, log_config_value, port_binding_value, restart_policy_value, ulimit_value};
ghost use Rattle.engine_bodies.specs.Json.{array_of};

use crate::objects::Object;
use crate::values::{Keyed, ToJson};
use engine_types::{
    Device, Endpoint, Healthcheck, LogConfig, PortBinding, PortBindings, RestartPolicy, Ulimit,
};
use serde_json::Value;
use std::alloc::Global;
use tree_base::{List, Memory, Text, Var};

impl ToJson for Var {
    ghost told = { λ pair. string pair.value };

    fn json(&self, alloc: Global) -> Result<Value, Memory> {
        self.value.json(alloc)
    }
}

impl Keyed for Var {
    ghost name = { λ pair. pair.name };

    fn key(&self) -> &Text {
        &self.name
    }
}

impl ToJson for Healthcheck {
    ghost told = { healthcheck_value };

    fn json(&self, alloc: Global) -> Result<Value, Memory> {
        let mut check = Object::new(alloc);
        check.option("Interval", &self.interval);
        check.option("Retries", &self.retries);
        check.option("StartPeriod", &self.start_period);
        check.option("Test", &self.test);
        check.option("Timeout", &self.timeout);
        check.end()
    }
}

impl ToJson for Ulimit {
    ghost told = { ulimit_value };

    fn json(&self, alloc: Global) -> Result<Value, Memory> {
        let mut limit = Object::new(alloc);
        limit.value("Hard", &self.hard);
        limit.value("Name", &self.name);
        limit.value("Soft", &self.soft);
        limit.end()
    }
}

impl ToJson for Device {
    ghost told = { device_value };

    fn json(&self, alloc: Global) -> Result<Value, Memory> {
        let mut device = Object::new(alloc);
        device.value("CgroupPermissions", &self.cgroup_permissions);
        device.value("PathInContainer", &self.path_in_container);
        device.value("PathOnHost", &self.path_on_host);
        device.end()
    }
}

impl ToJson for LogConfig {
    ghost told = { log_config_value };

    fn json(&self, alloc: Global) -> Result<Value, Memory> {
        let mut logging = Object::new(alloc);
        logging.mapping_if("Config", &self.config);
        logging.option("Type", &self.kind);
        logging.end()
    }
}

impl ToJson for RestartPolicy {
    ghost told = { restart_policy_value };

    fn json(&self, alloc: Global) -> Result<Value, Memory> {
        let mut policy = Object::new(alloc);
        policy.option("MaximumRetryCount", &self.maximum_retry_count);
        policy.value("Name", &self.name);
        policy.end()
    }
}

impl ToJson for PortBinding {
    ghost told = { port_binding_value };

    fn json(&self, alloc: Global) -> Result<Value, Memory> {
        let mut binding = Object::new(alloc);
        binding.option("HostIp", &self.host_ip);
        binding.option("HostPort", &self.host_port);
        binding.end()
    }
}

impl ToJson for PortBindings {
    ghost told = { λ port. array_of port_binding_value port.bindings };

    fn json(&self, alloc: Global) -> Result<Value, Memory> {
        self.bindings.json(alloc)
    }
}

impl Keyed for PortBindings {
    ghost name = { λ port. port.key };

    fn key(&self) -> &Text {
        &self.key
    }
}

impl ToJson for Endpoint {
    ghost told = { λ endpoint. endpoint_value endpoint.aliases };

    fn json(&self, alloc: Global) -> Result<Value, Memory> {
        endpoint_json(alloc, &self.aliases)
    }
}

impl Keyed for Endpoint {
    ghost name = { λ endpoint. endpoint.key };

    fn key(&self) -> &Text {
        &self.key
    }
}

/// How a network is joined as a value of JSON.
pub(crate) fn endpoint_json(alloc: Global, aliases: &List<Text>) -> Result<Value, Memory>
    ensures { IfOk result (λ value. view value ≡ endpoint_value aliases.now) }
{
    let mut endpoint = Object::new(alloc);
    endpoint.value("Aliases", aliases);
    endpoint.end()
}
