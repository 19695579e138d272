ghost use Rattle.std.specs.Prelude.{◌≡◌, map};
ghost use Rattle.attribute_types.specs.Tables.{form_of, line_of, seen_line, seen_service_line, dependency_lines, file_lines, file_use_lines, health_lines, host_lines, joining_lines, logging_lines, mount_lines, network_lines, network_use_lines, port_lines, process_lines, resource_lines, running_lines, ulimit_lines, volume_lines};

use crate::form::{Form, ItemForm, Plain, Row, WordSet};

/// A line of a table: a name, and what stands under it.
#[derive(Clone, Copy, Drop)]
pub struct Line {
    pub name: &'static str,
    pub plain: Plain,
}

/// A line of the tables of services, which have attributes of their own below some names.
#[derive(Clone, Copy, Drop)]
struct ServiceLine {
    name: &'static str,
    form: Form,
}

macro_rules! lines {
    ($($name:literal: $plain:expr,)*) => {
        [$(Line { name: $name, plain: $plain }),*]
    };
}

macro_rules! service_lines {
    ($($name:literal: $form:expr,)*) => {
        [$(ServiceLine { name: $name, form: $form }),*]
    };
}

const PROCESS: [ServiceLine; 11] = service_lines! {
    "command": Form::Plain(Plain::Argv),
    "entrypoint": Form::Plain(Plain::Argv),
    "environment": Form::Plain(Plain::Pairs),
    "image": Form::Plain(Plain::Text),
    "init": Form::Plain(Plain::Bool),
    "stdin_open": Form::Plain(Plain::Bool),
    "stop_grace_period": Form::Plain(Plain::Duration),
    "stop_signal": Form::Plain(Plain::Text),
    "tty": Form::Plain(Plain::Bool),
    "user": Form::Plain(Plain::Text),
    "working_dir": Form::Plain(Plain::Text),
};

const HOST: [ServiceLine; 12] = service_lines! {
    "cap_add": Form::Plain(Plain::List),
    "cap_drop": Form::Plain(Plain::List),
    "devices": Form::Plain(Plain::Items(ItemForm::Device)),
    "group_add": Form::Plain(Plain::List),
    "ipc": Form::Plain(Plain::Word(WordSet::OwnNamespaces)),
    "pid": Form::Plain(Plain::Word(WordSet::OwnNamespaces)),
    "privileged": Form::Plain(Plain::Bool),
    "read_only": Form::Plain(Plain::Flag),
    "security_opt": Form::Plain(Plain::Items(ItemForm::SecurityOption)),
    "sysctls": Form::Plain(Plain::Pairs),
    "ulimits": Form::Own(Row::Ulimits),
    "userns_mode": Form::Plain(Plain::Text),
};

const RESOURCE: [ServiceLine; 11] = service_lines! {
    "configs": Form::Own(Row::Configs),
    "cpu_shares": Form::Plain(Plain::Num),
    "cpus": Form::Plain(Plain::Decimal),
    "cpuset": Form::Plain(Plain::Text),
    "mem_limit": Form::Plain(Plain::Size),
    "mem_reservation": Form::Plain(Plain::Size),
    "pids_limit": Form::Plain(Plain::Int),
    "secrets": Form::Own(Row::Secrets),
    "shm_size": Form::Plain(Plain::Size),
    "tmpfs": Form::Plain(Plain::Items(ItemForm::Tmpfs)),
    "volumes": Form::Own(Row::Mounts),
};

const JOINING: [ServiceLine; 10] = service_lines! {
    "dns": Form::Plain(Plain::List),
    "dns_opt": Form::Plain(Plain::List),
    "dns_search": Form::Plain(Plain::List),
    "domainname": Form::Plain(Plain::Text),
    "expose": Form::Plain(Plain::Items(ItemForm::Exposed)),
    "extra_hosts": Form::Plain(Plain::Pairs),
    "hostname": Form::Plain(Plain::Text),
    "network_mode": Form::Plain(Plain::NetworkMode),
    "networks": Form::Own(Row::Networks),
    "ports": Form::Own(Row::Ports),
};

const RUNNING: [ServiceLine; 14] = service_lines! {
    "build": Form::Plain(Plain::Kept),
    "container_name": Form::Plain(Plain::Text),
    "depends_on": Form::Own(Row::Dependencies),
    "deploy": Form::Plain(Plain::Deploy),
    "env_file": Form::Consumed,
    "extends": Form::Consumed,
    "healthcheck": Form::Own(Row::HealthCheck),
    "labels": Form::Plain(Plain::Labels),
    "logging": Form::Own(Row::Logging),
    "platform": Form::Plain(Plain::Text),
    "profiles": Form::Plain(Plain::List),
    "pull_policy": Form::Plain(Plain::Word(WordSet::PullPolicies)),
    "restart": Form::Plain(Plain::Word(WordSet::Restarts)),
    "scale": Form::Plain(Plain::Scale),
};

const NETWORK: [Line; 8] = lines! {
    "attachable": Plain::Bool,
    "driver": Plain::Text,
    "driver_opts": Plain::Pairs,
    "enable_ipv6": Plain::Bool,
    "external": Plain::External,
    "internal": Plain::Bool,
    "labels": Plain::Pairs,
    "name": Plain::Text,
};

const VOLUME: [Line; 5] = lines! {
    "driver": Plain::Text,
    "driver_opts": Plain::Pairs,
    "external": Plain::External,
    "labels": Plain::Pairs,
    "name": Plain::Text,
};

const FILE: [Line; 1] = lines! {
    "file": Plain::Text,
};

const ULIMIT: [Line; 2] = lines! {
    "hard": Plain::Int,
    "soft": Plain::Int,
};

const LOGGING: [Line; 2] = lines! {
    "driver": Plain::Text,
    "options": Plain::Pairs,
};

const PORT: [Line; 7] = lines! {
    "app_protocol": Plain::Dropped,
    "host_ip": Plain::Text,
    "mode": Plain::Dropped,
    "name": Plain::Dropped,
    "protocol": Plain::Word(WordSet::Protocols),
    "published": Plain::Published,
    "target": Plain::PortTarget,
};

const MOUNT: [Line; 6] = lines! {
    "bind": Plain::Bind,
    "read_only": Plain::Flag,
    "source": Plain::Source,
    "target": Plain::Target,
    "type": Plain::Word(WordSet::MountTypes),
    "volume": Plain::NoOptions,
};

const FILE_USE: [Line; 5] = lines! {
    "gid": Plain::Text,
    "mode": Plain::Text,
    "source": Plain::Text,
    "target": Plain::Target,
    "uid": Plain::Text,
};

const NETWORK_USE: [Line; 1] = lines! {
    "aliases": Plain::List,
};

const HEALTH: [Line; 7] = lines! {
    "disable": Plain::Bool,
    "interval": Plain::Duration,
    "retries": Plain::Num,
    "start_interval": Plain::Duration,
    "start_period": Plain::Duration,
    "test": Plain::Test,
    "timeout": Plain::Duration,
};

const DEPENDENCY: [Line; 3] = lines! {
    "condition": Plain::Word(WordSet::Conditions),
    "required": Plain::Bool,
    "restart": Plain::Flag,
};

/// What runs in a service's container.
#[tactic(auto, unfolding(crate::specs::Tables::process_lines))]
fn process_lines() -> &'static [ServiceLine]
    ensures { map seen_service_line result.now ≡ process_lines }
{
    &PROCESS
}

/// What the container may do on its host.
#[tactic(auto, unfolding(crate::specs::Tables::host_lines))]
fn host_lines() -> &'static [ServiceLine]
    ensures { map seen_service_line result.now ≡ host_lines }
{
    &HOST
}

/// What it takes of the host, and what it sees of files.
#[tactic(auto, unfolding(crate::specs::Tables::resource_lines))]
fn resource_lines() -> &'static [ServiceLine]
    ensures { map seen_service_line result.now ≡ resource_lines }
{
    &RESOURCE
}

/// How it is on networks.
#[tactic(auto, unfolding(crate::specs::Tables::joining_lines))]
fn joining_lines() -> &'static [ServiceLine]
    ensures { map seen_service_line result.now ≡ joining_lines }
{
    &JOINING
}

/// How the service is run among others.
#[tactic(auto, unfolding(crate::specs::Tables::running_lines))]
fn running_lines() -> &'static [ServiceLine]
    ensures { map seen_service_line result.now ≡ running_lines }
{
    &RUNNING
}

/// The attributes of a network.
#[tactic(auto, unfolding(crate::specs::Tables::network_lines))]
pub fn network_lines() -> &'static [Line]
    ensures { map seen_line result.now ≡ network_lines }
{
    &NETWORK
}

/// The attributes of a volume.
#[tactic(auto, unfolding(crate::specs::Tables::volume_lines))]
pub fn volume_lines() -> &'static [Line]
    ensures { map seen_line result.now ≡ volume_lines }
{
    &VOLUME
}

/// The attributes of a secret or a config.
#[tactic(auto, unfolding(crate::specs::Tables::file_lines))]
pub fn file_lines() -> &'static [Line]
    ensures { map seen_line result.now ≡ file_lines }
{
    &FILE
}

/// A limit of two numbers.
#[tactic(auto, unfolding(crate::specs::Tables::ulimit_lines))]
pub fn ulimit_lines() -> &'static [Line]
    ensures { map seen_line result.now ≡ ulimit_lines }
{
    &ULIMIT
}

/// Where output goes.
#[tactic(auto, unfolding(crate::specs::Tables::logging_lines))]
pub fn logging_lines() -> &'static [Line]
    ensures { map seen_line result.now ≡ logging_lines }
{
    &LOGGING
}

/// A port.
#[tactic(auto, unfolding(crate::specs::Tables::port_lines))]
pub fn port_lines() -> &'static [Line]
    ensures { map seen_line result.now ≡ port_lines }
{
    &PORT
}

/// A mount; the options of a bind are read by themselves.
#[tactic(auto, unfolding(crate::specs::Tables::mount_lines))]
pub fn mount_lines() -> &'static [Line]
    ensures { map seen_line result.now ≡ mount_lines }
{
    &MOUNT
}

/// A secret or a config that a service uses.
#[tactic(auto, unfolding(crate::specs::Tables::file_use_lines))]
pub fn file_use_lines() -> &'static [Line]
    ensures { map seen_line result.now ≡ file_use_lines }
{
    &FILE_USE
}

/// A network that a service joins.
#[tactic(auto, unfolding(crate::specs::Tables::network_use_lines))]
pub fn network_use_lines() -> &'static [Line]
    ensures { map seen_line result.now ≡ network_use_lines }
{
    &NETWORK_USE
}

/// How a container's health is asked.
#[tactic(auto, unfolding(crate::specs::Tables::health_lines))]
pub fn health_lines() -> &'static [Line]
    ensures { map seen_line result.now ≡ health_lines }
{
    &HEALTH
}

/// A service that another one needs.
#[tactic(auto, unfolding(crate::specs::Tables::dependency_lines))]
pub fn dependency_lines() -> &'static [Line]
    ensures { map seen_line result.now ≡ dependency_lines }
{
    &DEPENDENCY
}

/// What stands under a name, where a line has it. No memory.
pub fn plain_of(lines: &[Line], name: &str) -> Option<Plain>
    ensures { result ≡ line_of (map seen_line lines.now) name.now }
{
    for line in lines {
        if line.name == name {
            return Some(line.plain);
        }
    }
    None
}

fn form_in(lines: &[ServiceLine], name: &str) -> Option<Form>
    ensures { result ≡ line_of (map seen_service_line lines.now) name.now }
{
    for line in lines {
        if line.name == name {
            return Some(line.form);
        }
    }
    None
}

/// What stands under a name of a service, where its tables have it. No memory.
pub fn form_of(name: &str) -> Option<Form>
    ensures { result ≡ form_of name.now }
{
    if let Some(form) = form_in(process_lines(), name) {
        return Some(form);
    }
    if let Some(form) = form_in(host_lines(), name) {
        return Some(form);
    }
    if let Some(form) = form_in(resource_lines(), name) {
        return Some(form);
    }
    if let Some(form) = form_in(joining_lines(), name) {
        return Some(form);
    }
    form_in(running_lines(), name)
}
