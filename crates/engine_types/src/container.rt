ghost use Rattle.std.specs.Prelude.{◌≡◌, IfOk};
ghost use Rattle.engine_types.specs.Specs.{empty_spec};

use crate::resource::Pairs;
use std::alloc::Global;
use tree_base::{Copier, List, Memory, Text, TryCopy};

/// A container as the Engine API's `POST /containers/create` takes it: one field for each member of the
/// body, named as the member with `_` between its words. A member under `HostConfig` or `NetworkingConfig`
/// stands here itself. A field is None where no attribute gives it. `platform` is a word of the query.
#[derive(Drop)]
pub struct ContainerSpec {
    pub labels: Pairs,
    pub platform: Option<Text>,
    pub image: Option<Text>,
    pub cmd: Option<List<Text>>,
    pub entrypoint: Option<List<Text>>,
    /// Each as `NAME=VALUE`.
    pub env: Option<List<Text>>,
    pub hostname: Option<Text>,
    pub domainname: Option<Text>,
    pub user: Option<Text>,
    pub working_dir: Option<Text>,
    pub stop_signal: Option<Text>,
    pub open_stdin: Option<bool>,
    pub tty: Option<bool>,
    pub privileged: Option<bool>,
    pub readonly_rootfs: Option<bool>,
    pub init: Option<bool>,
    pub cap_add: Option<List<Text>>,
    pub cap_drop: Option<List<Text>>,
    pub security_opt: Option<List<Text>>,
    pub group_add: Option<List<Text>>,
    pub dns: Option<List<Text>>,
    pub dns_search: Option<List<Text>>,
    pub dns_options: Option<List<Text>>,
    /// Each as `HOST:ADDRESS`.
    pub extra_hosts: Option<List<Text>>,
    pub sysctls: Option<Pairs>,
    pub ipc_mode: Option<Text>,
    pub pid_mode: Option<Text>,
    pub userns_mode: Option<Text>,
    pub cpuset_cpus: Option<Text>,
    /// In bytes.
    pub shm_size: Option<i64>,
    /// In bytes.
    pub memory: Option<i64>,
    /// In bytes.
    pub memory_reservation: Option<i64>,
    /// In billionths of a processor.
    pub nano_cpus: Option<i64>,
    pub cpu_shares: Option<i64>,
    pub pids_limit: Option<i64>,
    pub ulimits: Option<List<Ulimit>>,
    pub devices: Option<List<Device>>,
    pub log_config: Option<LogConfig>,
    pub restart_policy: Option<RestartPolicy>,
    /// Each as `PORT/PROTOCOL`.
    pub exposed_ports: Option<List<Text>>,
    pub port_bindings: Option<List<PortBindings>>,
    /// Each as `SOURCE:TARGET:MODE`.
    pub binds: Option<List<Text>>,
    /// The targets of volumes without a name.
    pub volumes: Option<List<Text>>,
    /// The options of each in-memory file system, under its path.
    pub tmpfs: Option<Pairs>,
    pub network_mode: Option<Text>,
    pub endpoints_config: Option<List<Endpoint>>,
    pub healthcheck: Option<Healthcheck>,
    /// In seconds.
    pub stop_timeout: Option<i64>,
}

impl ContainerSpec {
    /// What a container is made with of which nothing is said: it has no label, and each other field is None.
    /// No memory.
    pub fn empty(alloc: Global) -> ContainerSpec
        ensures { result ≡ empty_spec }
    {
        ContainerSpec {
            labels: List::new(alloc),
            platform: None,
            image: None,
            cmd: None,
            entrypoint: None,
            env: None,
            hostname: None,
            domainname: None,
            user: None,
            working_dir: None,
            stop_signal: None,
            open_stdin: None,
            tty: None,
            privileged: None,
            readonly_rootfs: None,
            init: None,
            cap_add: None,
            cap_drop: None,
            security_opt: None,
            group_add: None,
            dns: None,
            dns_search: None,
            dns_options: None,
            extra_hosts: None,
            sysctls: None,
            ipc_mode: None,
            pid_mode: None,
            userns_mode: None,
            cpuset_cpus: None,
            shm_size: None,
            memory: None,
            memory_reservation: None,
            nano_cpus: None,
            cpu_shares: None,
            pids_limit: None,
            ulimits: None,
            devices: None,
            log_config: None,
            restart_policy: None,
            exposed_ports: None,
            port_bindings: None,
            binds: None,
            volumes: None,
            tmpfs: None,
            network_mode: None,
            endpoints_config: None,
            healthcheck: None,
            stop_timeout: None,
        }
    }
}

impl TryCopy for ContainerSpec {
    fn copy(&self, alloc: Global) -> Result<ContainerSpec, Memory> {
        let mut copier = Copier::new(alloc);
        let copy = ContainerSpec {
            labels: copier.list(&self.labels),
            platform: copier.option(&self.platform),
            image: copier.option(&self.image),
            cmd: copier.option(&self.cmd),
            entrypoint: copier.option(&self.entrypoint),
            env: copier.option(&self.env),
            hostname: copier.option(&self.hostname),
            domainname: copier.option(&self.domainname),
            user: copier.option(&self.user),
            working_dir: copier.option(&self.working_dir),
            stop_signal: copier.option(&self.stop_signal),
            open_stdin: self.open_stdin,
            tty: self.tty,
            privileged: self.privileged,
            readonly_rootfs: self.readonly_rootfs,
            init: self.init,
            cap_add: copier.option(&self.cap_add),
            cap_drop: copier.option(&self.cap_drop),
            security_opt: copier.option(&self.security_opt),
            group_add: copier.option(&self.group_add),
            dns: copier.option(&self.dns),
            dns_search: copier.option(&self.dns_search),
            dns_options: copier.option(&self.dns_options),
            extra_hosts: copier.option(&self.extra_hosts),
            sysctls: copier.option(&self.sysctls),
            ipc_mode: copier.option(&self.ipc_mode),
            pid_mode: copier.option(&self.pid_mode),
            userns_mode: copier.option(&self.userns_mode),
            cpuset_cpus: copier.option(&self.cpuset_cpus),
            shm_size: self.shm_size,
            memory: self.memory,
            memory_reservation: self.memory_reservation,
            nano_cpus: self.nano_cpus,
            cpu_shares: self.cpu_shares,
            pids_limit: self.pids_limit,
            ulimits: copier.option(&self.ulimits),
            devices: copier.option(&self.devices),
            log_config: copier.option(&self.log_config),
            restart_policy: copier.option(&self.restart_policy),
            exposed_ports: copier.option(&self.exposed_ports),
            port_bindings: copier.option(&self.port_bindings),
            binds: copier.option(&self.binds),
            volumes: copier.option(&self.volumes),
            tmpfs: copier.option(&self.tmpfs),
            network_mode: copier.option(&self.network_mode),
            endpoints_config: copier.option(&self.endpoints_config),
            healthcheck: copier.option(&self.healthcheck),
            stop_timeout: self.stop_timeout,
        };
        copier.whole(copy)
    }
}

/// A row of `Ulimits`.
#[derive(Drop)]
pub struct Ulimit {
    pub name: Text,
    pub soft: i64,
    pub hard: i64,
}

impl TryCopy for Ulimit {
    fn copy(&self, alloc: Global) -> Result<Ulimit, Memory> {
        Ok(Ulimit {
            name: self.name.copy(alloc)?,
            soft: self.soft,
            hard: self.hard,
        })
    }
}

/// A row of `Devices`.
#[derive(Drop)]
pub struct Device {
    pub path_on_host: Text,
    pub path_in_container: Text,
    pub cgroup_permissions: Text,
}

impl TryCopy for Device {
    fn copy(&self, alloc: Global) -> Result<Device, Memory> {
        let mut copier = Copier::new(alloc);
        let copy = Device {
            path_on_host: copier.text(&self.path_on_host),
            path_in_container: copier.text(&self.path_in_container),
            cgroup_permissions: copier.text(&self.cgroup_permissions),
        };
        copier.whole(copy)
    }
}

/// `LogConfig`, whose member `Type` is `kind`.
#[derive(Drop)]
pub struct LogConfig {
    pub kind: Option<Text>,
    pub config: Option<Pairs>,
}

impl TryCopy for LogConfig {
    fn copy(&self, alloc: Global) -> Result<LogConfig, Memory> {
        Ok(LogConfig {
            kind: self.kind.copy(alloc)?,
            config: self.config.copy(alloc)?,
        })
    }
}

/// `RestartPolicy`.
#[derive(Drop)]
pub struct RestartPolicy {
    pub name: Text,
    pub maximum_retry_count: Option<i64>,
}

impl TryCopy for RestartPolicy {
    fn copy(&self, alloc: Global) -> Result<RestartPolicy, Memory> {
        Ok(RestartPolicy {
            name: self.name.copy(alloc)?,
            maximum_retry_count: self.maximum_retry_count,
        })
    }
}

/// A key of `PortBindings`, `PORT/PROTOCOL`, with its rows.
#[derive(Drop)]
pub struct PortBindings {
    pub key: Text,
    pub bindings: List<PortBinding>,
}

impl TryCopy for PortBindings {
    fn copy(&self, alloc: Global) -> Result<PortBindings, Memory> {
        Ok(PortBindings {
            key: self.key.copy(alloc)?,
            bindings: self.bindings.copy(alloc)?,
        })
    }
}

/// A row of `PortBindings`.
#[derive(Drop)]
pub struct PortBinding {
    pub host_ip: Option<Text>,
    pub host_port: Option<Text>,
}

impl TryCopy for PortBinding {
    fn copy(&self, alloc: Global) -> Result<PortBinding, Memory> {
        Ok(PortBinding {
            host_ip: self.host_ip.copy(alloc)?,
            host_port: self.host_port.copy(alloc)?,
        })
    }
}

/// A key of `EndpointsConfig`, the name of a network, with its aliases.
#[derive(Drop)]
pub struct Endpoint {
    pub key: Text,
    pub aliases: List<Text>,
}

impl TryCopy for Endpoint {
    fn copy(&self, alloc: Global) -> Result<Endpoint, Memory> {
        Ok(Endpoint {
            key: self.key.copy(alloc)?,
            aliases: self.aliases.copy(alloc)?,
        })
    }
}

/// `Healthcheck`, with its durations in nanoseconds.
#[derive(Drop)]
pub struct Healthcheck {
    pub test: Option<List<Text>>,
    pub interval: Option<i64>,
    pub timeout: Option<i64>,
    pub start_period: Option<i64>,
    pub retries: Option<i64>,
}

impl TryCopy for Healthcheck {
    fn copy(&self, alloc: Global) -> Result<Healthcheck, Memory> {
        Ok(Healthcheck {
            test: self.test.copy(alloc)?,
            interval: self.interval,
            timeout: self.timeout,
            start_period: self.start_period,
            retries: self.retries,
        })
    }
}
