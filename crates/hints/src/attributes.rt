ghost use Rattle.std.specs.Prelude.{◌≡◌, IfOk, map};
ghost use Rattle.attribute_types.specs.Tables.{seen_line};
ghost use Rattle.hints.specs.Attributes.{attribute_hint, element_names, item_hint, key_hint, names_of, service_names};

use crate::near::{meant_words, near};
use attribute_types::{Line, network_lines, volume_lines};
use std::alloc::Global;
use tree_base::{Memory, Step, Text};

/// The longest key of which anything is said, in bytes.
const MOST_SAID: usize = 64;

/// The top-level elements.
static ELEMENTS: [&str; 8] = [
    "version", "name", "include", "services", "networks", "volumes", "configs", "secrets",
];

/// The attributes of a service, in the order of their tables.
static SERVICE: [&str; 58] = [
    "command",
    "entrypoint",
    "environment",
    "image",
    "init",
    "stdin_open",
    "stop_grace_period",
    "stop_signal",
    "tty",
    "user",
    "working_dir",
    "cap_add",
    "cap_drop",
    "devices",
    "group_add",
    "ipc",
    "pid",
    "privileged",
    "read_only",
    "security_opt",
    "sysctls",
    "ulimits",
    "userns_mode",
    "configs",
    "cpu_shares",
    "cpus",
    "cpuset",
    "mem_limit",
    "mem_reservation",
    "pids_limit",
    "secrets",
    "shm_size",
    "tmpfs",
    "volumes",
    "dns",
    "dns_opt",
    "dns_search",
    "domainname",
    "expose",
    "extra_hosts",
    "hostname",
    "network_mode",
    "networks",
    "ports",
    "build",
    "container_name",
    "depends_on",
    "deploy",
    "env_file",
    "extends",
    "healthcheck",
    "labels",
    "logging",
    "platform",
    "profiles",
    "pull_policy",
    "restart",
    "scale",
];

fn elements() -> &'static [&'static str]
    ensures { map (λ name. name.now) result.now ≡ element_names }
{
    &ELEMENTS
}

#[tactic(auto, unfolding(attribute_types::specs::Tables::process_lines, attribute_types::specs::Tables::host_lines, attribute_types::specs::Tables::resource_lines, attribute_types::specs::Tables::joining_lines, attribute_types::specs::Tables::running_lines))]
fn service_names() -> &'static [&'static str]
    ensures { map (λ name. name.now) result.now ≡ service_names }
{
    &SERVICE
}

/// The known attribute that may be meant where a path ends with the name of none: of a service, a network or a volume, or at the top
/// of a file. Nothing is said of a name of more than 64 bytes.
pub fn attribute_hint(alloc: Global, path: &[Step]) -> Result<Option<Text>, Memory>
    ensures { IfOk result (λ hint. hint ≡ attribute_hint path.now) }
{
    match path {
        [Step::Key(key)] => key_hint(alloc, key.as_str(), elements()),
        [Step::Key(section), Step::Key(_), Step::Key(key)] => {
            item_hint(alloc, section.as_str(), key.as_str())
        }
        _ => Ok(None),
    }
}

/// The same of a key of what stands in a section.
fn item_hint(alloc: Global, section: &str, key: &str) -> Result<Option<Text>, Memory>
    ensures { IfOk result (λ hint. hint ≡ item_hint section.now key.now) }
{
    if section == "services" {
        key_hint(alloc, key, service_names())
    } else if section == "networks" {
        line_hint(alloc, key, network_lines())
    } else if section == "volumes" {
        line_hint(alloc, key, volume_lines())
    } else {
        Ok(None)
    }
}

/// The same of a key among the names of a table.
fn line_hint(alloc: Global, key: &str, lines: &[Line]) -> Result<Option<Text>, Memory>
    ensures { IfOk result (λ hint. hint ≡ key_hint key.now (names_of (map seen_line lines.now))) }
{
    let names = names_of(alloc, lines)?;
    key_hint(alloc, key, names.as_slice())
}

fn names_of(alloc: Global, lines: &[Line]) -> Result<Vec<&'static str>, Memory>
    ensures { IfOk result (λ names.
        map (λ name. name.now) names.items ≡ names_of (map seen_line lines.now)) }
{
    let mut names = Vec::new(alloc);
    for line in lines {
        names.push(line.name)?;
    }
    Ok(names)
}

/// The same of a key among known names.
fn key_hint(alloc: Global, key: &str, known: &[&str]) -> Result<Option<Text>, Memory>
    ensures { IfOk result (λ hint. hint ≡ key_hint key.now (map (λ name. name.now) known.now)) }
{
    if key.len() > MOST_SAID {
        return Ok(None);
    }
    match near(alloc, key, known)? {
        Some(name) => Ok(Some(meant_words(alloc, key, name)?)),
        None => Ok(None),
    }
}
