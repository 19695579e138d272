use crate::health::{healthcheck_if, log_config_if, restart_policy_if};
use crate::rows::{devices_if, endpoints_if, port_bindings_if, ulimits_if};
use crate::values::{flag_if, integer_if, pairs_at, pairs_if, text_if, texts_if};
use case_files::{Fields, Reading};
use engine_types::ContainerSpec;

/// A container of the members that are said, each under the name of its field in `ContainerSpec`.
pub(crate) fn container_of(reading: &mut Reading, fields: &Fields) -> ContainerSpec {
    ContainerSpec {
        labels: pairs_at(reading, fields, "labels"),
        platform: text_if(reading, fields, "platform"),
        image: text_if(reading, fields, "image"),
        cmd: texts_if(reading, fields, "cmd"),
        entrypoint: texts_if(reading, fields, "entrypoint"),
        env: texts_if(reading, fields, "env"),
        hostname: text_if(reading, fields, "hostname"),
        domainname: text_if(reading, fields, "domainname"),
        user: text_if(reading, fields, "user"),
        working_dir: text_if(reading, fields, "working_dir"),
        stop_signal: text_if(reading, fields, "stop_signal"),
        open_stdin: flag_if(reading, fields, "open_stdin"),
        tty: flag_if(reading, fields, "tty"),
        privileged: flag_if(reading, fields, "privileged"),
        readonly_rootfs: flag_if(reading, fields, "readonly_rootfs"),
        init: flag_if(reading, fields, "init"),
        cap_add: texts_if(reading, fields, "cap_add"),
        cap_drop: texts_if(reading, fields, "cap_drop"),
        security_opt: texts_if(reading, fields, "security_opt"),
        group_add: texts_if(reading, fields, "group_add"),
        dns: texts_if(reading, fields, "dns"),
        dns_search: texts_if(reading, fields, "dns_search"),
        dns_options: texts_if(reading, fields, "dns_options"),
        extra_hosts: texts_if(reading, fields, "extra_hosts"),
        sysctls: pairs_if(reading, fields, "sysctls"),
        ipc_mode: text_if(reading, fields, "ipc_mode"),
        pid_mode: text_if(reading, fields, "pid_mode"),
        userns_mode: text_if(reading, fields, "userns_mode"),
        cpuset_cpus: text_if(reading, fields, "cpuset_cpus"),
        shm_size: integer_if(reading, fields, "shm_size"),
        memory: integer_if(reading, fields, "memory"),
        memory_reservation: integer_if(reading, fields, "memory_reservation"),
        nano_cpus: integer_if(reading, fields, "nano_cpus"),
        cpu_shares: integer_if(reading, fields, "cpu_shares"),
        pids_limit: integer_if(reading, fields, "pids_limit"),
        ulimits: ulimits_if(reading, fields),
        devices: devices_if(reading, fields),
        log_config: log_config_if(reading, fields),
        restart_policy: restart_policy_if(reading, fields),
        exposed_ports: texts_if(reading, fields, "exposed_ports"),
        port_bindings: port_bindings_if(reading, fields),
        binds: texts_if(reading, fields, "binds"),
        volumes: texts_if(reading, fields, "volumes"),
        tmpfs: pairs_if(reading, fields, "tmpfs"),
        network_mode: text_if(reading, fields, "network_mode"),
        endpoints_config: endpoints_if(reading, fields),
        healthcheck: healthcheck_if(reading, fields),
        stop_timeout: integer_if(reading, fields, "stop_timeout"),
    }
}
