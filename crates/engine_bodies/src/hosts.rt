ghost use Rattle.std.specs.Prelude.{◌≡◌, IfOk};
ghost use Rattle.std.specs.Option.{option_map};
ghost use Rattle.serde_json.specs.View.{view};
ghost use Rattle.engine_bodies.specs.Containers.{host_limits, host_rights, host_ties, host_value};
ghost use Rattle.engine_bodies.specs.Objects.{Adds};

use crate::objects::Object;
use engine_types::ContainerSpec;
use serde_json::Value;
use std::alloc::Global;
use tree_base::Memory;

/// `HostConfig` of a container as a value of JSON; None where it has no member.
pub(crate) fn host_json(alloc: Global, spec: &ContainerSpec) -> Result<Option<Value>, Memory>
    ensures { IfOk result (λ value. option_map view value ≡ host_value spec.now) }
{
    let mut host = Object::new(alloc);
    rights(&mut host, spec);
    limits(&mut host, spec);
    ties(&mut host, spec);
    host.end_if_any()
}

/// Adds what a container may do on its host.
fn rights(host: &mut Object, spec: &ContainerSpec)
    ensures { Adds host.old host.new (host_rights spec.now) }
{
    host.option("CapAdd", &spec.cap_add);
    host.option("CapDrop", &spec.cap_drop);
    host.option("Devices", &spec.devices);
    host.option("GroupAdd", &spec.group_add);
    host.option("IpcMode", &spec.ipc_mode);
    host.option("PidMode", &spec.pid_mode);
    host.option("Privileged", &spec.privileged);
    host.option("ReadonlyRootfs", &spec.readonly_rootfs);
    host.option("SecurityOpt", &spec.security_opt);
    host.mapping_if("Sysctls", &spec.sysctls);
    host.option("UsernsMode", &spec.userns_mode);
}

/// Adds what it may take of its host, and how it is run.
fn limits(host: &mut Object, spec: &ContainerSpec)
    ensures { Adds host.old host.new (host_limits spec.now) }
{
    host.option("CpuShares", &spec.cpu_shares);
    host.option("CpusetCpus", &spec.cpuset_cpus);
    host.option("Init", &spec.init);
    host.option("LogConfig", &spec.log_config);
    host.option("Memory", &spec.memory);
    host.option("MemoryReservation", &spec.memory_reservation);
    host.option("NanoCpus", &spec.nano_cpus);
    host.option("PidsLimit", &spec.pids_limit);
    host.option("RestartPolicy", &spec.restart_policy);
    host.option("ShmSize", &spec.shm_size);
    host.option("Ulimits", &spec.ulimits);
}

/// Adds its files and networks.
fn ties(host: &mut Object, spec: &ContainerSpec)
    ensures { Adds host.old host.new (host_ties spec.now) }
{
    host.option("Binds", &spec.binds);
    host.option("Dns", &spec.dns);
    host.option("DnsOptions", &spec.dns_options);
    host.option("DnsSearch", &spec.dns_search);
    host.option("ExtraHosts", &spec.extra_hosts);
    host.option("NetworkMode", &spec.network_mode);
    host.mapping_if("PortBindings", &spec.port_bindings);
    host.mapping_if("Tmpfs", &spec.tmpfs);
}
