ghost use Rattle.std.specs.Prelude.{◌≡◌, false, codes};
ghost use Rattle.std.specs.Option.{option_and_then, option_copied, option_map};
ghost use Rattle.attribute_types.specs.Lookups.{health_at, logging_at, text_at};
ghost use Rattle.container_specs.specs.Health.{healthcheck_of};
ghost use Rattle.container_specs.specs.Host.{devices_of, extra_hosts_of, ulimits_of};
ghost use Rattle.container_specs.specs.Lists.{named_pairs, unless_empty, vars_of};
ghost use Rattle.container_specs.specs.Mounts.{binds_of, tmpfs_of, volumes_of};
ghost use Rattle.container_specs.specs.Networks.{endpoints_of, network_mode_of};
ghost use Rattle.container_specs.specs.Ports.{exposed_ports_of, port_bindings_of, ports_in};
ghost use Rattle.container_specs.specs.Process.{env_of, log_config_of, restart_policy_of};

use crate::health::healthcheck_of;
use crate::host::{devices_of, extra_hosts_of, sysctls_of, ulimits_of};
use crate::lists::unless_empty;
use crate::mounts::{binds_of, tmpfs_of, volumes_of};
use crate::networks::{JoinedNetwork, endpoints_of, network_mode_of};
use crate::ports::{exposed_ports_of, port_bindings_of};
use crate::process::{env_of, log_config_of, restart_policy_of};
use engine_types::{
    Device, Endpoint, Healthcheck, LogConfig, Pairs, PortBindings, RestartPolicy, Ulimit,
};
use tree_base::{Copier, List, Text};
use typed_project::{Project, Service};

/// Texts that are there, where there are any.
pub(crate) fn texts(copier: &mut Copier, texts: Option<&List<Text>>) -> Option<List<Text>>
    ensures kept { copier.new.failed ≡ false → copier.old.failed ≡ false }
    ensures same { copier.new.failed ≡ false →
        result ≡ option_and_then unless_empty (option_copied texts.entry) }
{
    unless_empty(copier.copy(texts)?)
}

pub(crate) fn env(copier: &mut Copier, service: &Service) -> Option<List<Text>>
    ensures kept { copier.new.failed ≡ false → copier.old.failed ≡ false }
    ensures same { copier.new.failed ≡ false → result ≡ env_of service.now.attributes }
{
    copier.made(env_of(copier.alloc, service))
}

pub(crate) fn extra_hosts(copier: &mut Copier, service: &Service) -> Option<List<Text>>
    ensures kept { copier.new.failed ≡ false → copier.old.failed ≡ false }
    ensures same { copier.new.failed ≡ false → result ≡ extra_hosts_of service.now.attributes }
{
    copier.made(extra_hosts_of(copier.alloc, service))
}

pub(crate) fn sysctls(copier: &mut Copier, service: &Service) -> Option<Pairs>
    ensures kept { copier.new.failed ≡ false → copier.old.failed ≡ false }
    ensures same { copier.new.failed ≡ false → result
        ≡ unless_empty (vars_of (named_pairs service.now.attributes (codes "sysctls"))) }
{
    copier.made(sysctls_of(copier.alloc, service))
}

pub(crate) fn ulimits(copier: &mut Copier, service: &Service) -> Option<List<Ulimit>>
    ensures kept { copier.new.failed ≡ false → copier.old.failed ≡ false }
    ensures same { copier.new.failed ≡ false → result ≡ ulimits_of service.now.attributes }
{
    copier.made(ulimits_of(copier.alloc, service))
}

pub(crate) fn devices(copier: &mut Copier, service: &Service) -> Option<List<Device>>
    ensures kept { copier.new.failed ≡ false → copier.old.failed ≡ false }
    ensures same { copier.new.failed ≡ false → result ≡ devices_of service.now.attributes }
{
    copier.made(devices_of(copier.alloc, service))
}

pub(crate) fn log_config(copier: &mut Copier, service: &Service) -> Option<LogConfig>
    ensures kept { copier.new.failed ≡ false → copier.old.failed ≡ false }
    ensures same { copier.new.failed ≡ false → result
        ≡ option_map log_config_of (logging_at service.now.attributes (codes "logging")) }
{
    copier.made(log_config_of(copier.alloc, service))
}

pub(crate) fn restart_policy(copier: &mut Copier, service: &Service) -> Option<RestartPolicy>
    ensures kept { copier.new.failed ≡ false → copier.old.failed ≡ false }
    ensures same { copier.new.failed ≡ false → result
        ≡ option_map restart_policy_of (text_at service.now.attributes (codes "restart")) }
{
    copier.made(restart_policy_of(copier.alloc, service))
}

pub(crate) fn exposed_ports(copier: &mut Copier, service: &Service) -> Option<List<Text>>
    ensures kept { copier.new.failed ≡ false → copier.old.failed ≡ false }
    ensures same { copier.new.failed ≡ false → result ≡ exposed_ports_of service.now.attributes }
{
    copier.made(exposed_ports_of(copier.alloc, service))
}

pub(crate) fn port_bindings(copier: &mut Copier, service: &Service) -> Option<List<PortBindings>>
    ensures kept { copier.new.failed ≡ false → copier.old.failed ≡ false }
    ensures same { copier.new.failed ≡ false → result
        ≡ port_bindings_of (ports_in service.now.attributes) }
{
    copier.made(port_bindings_of(copier.alloc, service))
}

pub(crate) fn binds(copier: &mut Copier, project: &Project, service: &Service) -> Option<List<Text>>
    ensures kept { copier.new.failed ≡ false → copier.old.failed ≡ false }
    ensures same { copier.new.failed ≡ false → result ≡ binds_of project.now service.now }
{
    copier.made(binds_of(copier.alloc, project, service))
}

pub(crate) fn volumes(copier: &mut Copier, service: &Service) -> Option<List<Text>>
    ensures kept { copier.new.failed ≡ false → copier.old.failed ≡ false }
    ensures same { copier.new.failed ≡ false → result ≡ volumes_of service.now.attributes }
{
    copier.made(volumes_of(copier.alloc, service))
}

pub(crate) fn tmpfs(copier: &mut Copier, service: &Service) -> Option<Pairs>
    ensures kept { copier.new.failed ≡ false → copier.old.failed ≡ false }
    ensures same { copier.new.failed ≡ false → result ≡ tmpfs_of service.now.attributes }
{
    copier.made(tmpfs_of(copier.alloc, service))
}

pub(crate) fn network_mode(
    copier: &mut Copier,
    networks: &List<JoinedNetwork>,
    service: &Service,
) -> Option<Text>
    ensures kept { copier.new.failed ≡ false → copier.old.failed ≡ false }
    ensures same { copier.new.failed ≡ false → result ≡ network_mode_of networks.now service.now }
{
    copier.made(network_mode_of(copier.alloc, networks, service))
}

pub(crate) fn endpoints(
    copier: &mut Copier,
    networks: &List<JoinedNetwork>,
) -> Option<List<Endpoint>>
    ensures kept { copier.new.failed ≡ false → copier.old.failed ≡ false }
    ensures same { copier.new.failed ≡ false → result ≡ endpoints_of networks.now }
{
    copier.made(endpoints_of(copier.alloc, networks))
}

pub(crate) fn healthcheck(copier: &mut Copier, service: &Service) -> Option<Healthcheck>
    ensures kept { copier.new.failed ≡ false → copier.old.failed ≡ false }
    ensures same { copier.new.failed ≡ false → result
        ≡ option_map healthcheck_of (health_at service.now.attributes (codes "healthcheck")) }
{
    copier.made(healthcheck_of(copier.alloc, service))
}
