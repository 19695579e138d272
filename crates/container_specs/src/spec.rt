ghost use Rattle.std.specs.Prelude.{◌≡◌, false, codes, IfOk};
ghost use Rattle.std.specs.Option.{option_map};
ghost use Rattle.container_specs.specs.Specs.{container_spec};

use crate::fields;
use crate::networks::networks_by_name;
use crate::numbers::{seconds, signed_option};
use engine_types::{ContainerSpec, Pairs};
use std::alloc::Global;
use tree_base::{Copier, Memory, Text};
use typed_project::{Project, Service};

/// What the Engine is sent of a service's container, with these labels and this image: each field from the attribute that gives it, None
/// where it isn't there (Compose Specification, services; Engine API, `POST /containers/create`).
#[tactic(auto, unfolding(crate::specs::Specs::container_spec))]
pub fn container_spec(
    alloc: Global,
    project: &Project,
    service: &Service,
    labels: Pairs,
    image: &str,
) -> Result<ContainerSpec, Memory>
    ensures { IfOk result (λ spec. spec ≡ container_spec project.now service.now labels image.now) }
{
    let networks = networks_by_name(alloc, project, service)?;
    let image = Text::from_str(alloc, image)?;
    let mut copier = Copier::new(alloc);
    let spec = ContainerSpec {
        labels,
        platform: copier.copy(service.platform()),
        image: Some(image),
        cmd: copier.copy(service.command()),
        entrypoint: copier.copy(service.entrypoint()),
        env: fields::env(&mut copier, service),
        hostname: copier.copy(service.hostname()),
        domainname: copier.copy(service.domainname()),
        user: copier.copy(service.user()),
        working_dir: copier.copy(service.working_dir()),
        stop_signal: copier.copy(service.stop_signal()),
        open_stdin: service.stdin_open(),
        tty: service.tty(),
        privileged: service.privileged(),
        readonly_rootfs: service.read_only(),
        init: service.init(),
        cap_add: fields::texts(&mut copier, service.cap_add()),
        cap_drop: fields::texts(&mut copier, service.cap_drop()),
        security_opt: fields::texts(&mut copier, service.security_opt()),
        group_add: fields::texts(&mut copier, service.group_add()),
        dns: fields::texts(&mut copier, service.dns()),
        dns_search: fields::texts(&mut copier, service.dns_search()),
        dns_options: fields::texts(&mut copier, service.dns_opt()),
        extra_hosts: fields::extra_hosts(&mut copier, service),
        sysctls: fields::sysctls(&mut copier, service),
        ipc_mode: copier.copy(service.ipc()),
        pid_mode: copier.copy(service.pid()),
        userns_mode: copier.copy(service.userns_mode()),
        cpuset_cpus: copier.copy(service.cpuset()),
        shm_size: signed_option(service.shm_size()),
        memory: signed_option(service.mem_limit()),
        memory_reservation: signed_option(service.mem_reservation()),
        nano_cpus: signed_option(service.cpus()),
        cpu_shares: signed_option(service.cpu_shares()),
        pids_limit: service.pids_limit(),
        ulimits: fields::ulimits(&mut copier, service),
        devices: fields::devices(&mut copier, service),
        log_config: fields::log_config(&mut copier, service),
        restart_policy: fields::restart_policy(&mut copier, service),
        exposed_ports: fields::exposed_ports(&mut copier, service),
        port_bindings: fields::port_bindings(&mut copier, service),
        binds: fields::binds(&mut copier, project, service),
        volumes: fields::volumes(&mut copier, service),
        tmpfs: fields::tmpfs(&mut copier, service),
        network_mode: fields::network_mode(&mut copier, &networks, service),
        endpoints_config: fields::endpoints(&mut copier, &networks),
        healthcheck: fields::healthcheck(&mut copier, service),
        stop_timeout: seconds(service.stop_grace_period()),
    };
    copier.whole(spec)
}
