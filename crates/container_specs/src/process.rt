ghost use Rattle.std.specs.Prelude.{◌≡◌, ◌++◌, [], IfOk, OnOk, codes, flat_map};
ghost use Rattle.std.specs.Option.{option_map, option_map_or};
ghost use Rattle.attribute_types.specs.Lookups.{logging_at, text_at};
ghost use Rattle.container_specs.specs.Process.{env_of, log_config_of, restart_policy_of, setting_of};

use crate::lists::{in_byte_order, joined, unless_empty, vars_of};
use crate::numbers::signed_option;
use attribute_types::{Logging, Pairs};
use engine_types::{LogConfig, RestartPolicy};
use short_forms::{cut_text, number};
use std::alloc::Global;
use tree_base::limits::GREATEST_NUMBER;
use tree_base::{List, Memory, Text, TryCopy};
use typed_project::Service;

/// The variables, each as `NAME=VALUE`, in byte order; one without a value isn't there.
pub(crate) fn env_of(alloc: Global, service: &Service) -> Result<Option<List<Text>>, Memory>
    ensures { IfOk result (λ env. env ≡ env_of service.now.attributes) }
{
    match service.environment() {
        Some(pairs) => {
            let settings = settings_of(alloc, pairs)?;
            Ok(unless_empty(in_byte_order(settings)?))
        }
        None => Ok(None),
    }
}

fn settings_of(alloc: Global, pairs: &Pairs) -> Result<List<Text>, Memory>
    ensures { IfOk result (λ settings.
        settings ≡ flat_map (λ pair. setting_of pair.0 pair.1) pairs.now) }
{
    let mut settings = List::new(alloc);
    for at in 0..pairs.len() {
        put_setting(alloc, pairs.pair(at), &mut settings)?;
    }
    Ok(settings)
}

fn put_setting(
    alloc: Global,
    pair: Option<(&Text, &Option<Text>)>,
    settings: &mut List<Text>,
) -> Result<(), Memory>
    ensures { OnOk result (settings.new ≡
        settings.old ++ option_map_or (λ p. setting_of p.0.now p.1.now) pair.entry []) }
{
    match pair {
        Some((name, value)) => put_value(alloc, name, value, settings),
        None => Ok(()),
    }
}

/// Puts a variable, where it has a value.
fn put_value(
    alloc: Global,
    name: &Text,
    value: &Option<Text>,
    settings: &mut List<Text>,
) -> Result<(), Memory>
    ensures { OnOk result (settings.new ≡ settings.old ++ setting_of name.now value.now) }
{
    match value {
        Some(value) => settings.push(joined(alloc, name.as_str(), "=", value.as_str())?),
        None => Ok(()),
    }
}

/// When the container is started again, where the service says so.
pub(crate) fn restart_policy_of(
    alloc: Global,
    service: &Service,
) -> Result<Option<RestartPolicy>, Memory>
    ensures { IfOk result (λ policy.
        policy ≡ option_map restart_policy_of (text_at service.now.attributes (codes "restart"))) }
{
    match service.restart() {
        Some(word) => Ok(Some(policy_of(alloc, word)?)),
        None => Ok(None),
    }
}

/// The policy of a word, with the number of tries behind a colon.
fn policy_of(alloc: Global, word: &Text) -> Result<RestartPolicy, Memory>
    ensures { IfOk result (λ policy. policy ≡ restart_policy_of word.now) }
{
    match cut_text(word.as_str(), ':') {
        None => Ok(RestartPolicy {
            name: word.copy(alloc)?,
            maximum_retry_count: None,
        }),
        Some((name, tries)) => Ok(RestartPolicy {
            name: Text::from_str(alloc, name)?,
            maximum_retry_count: signed_option(number(tries.as_bytes(), GREATEST_NUMBER)),
        }),
    }
}

/// Where the output goes, where the service says so.
pub(crate) fn log_config_of(alloc: Global, service: &Service) -> Result<Option<LogConfig>, Memory>
    ensures { IfOk result (λ config.
        config ≡ option_map log_config_of (logging_at service.now.attributes (codes "logging"))) }
{
    match service.logging() {
        Some(logging) => Ok(Some(config_of(alloc, logging)?)),
        None => Ok(None),
    }
}

fn config_of(alloc: Global, logging: &Logging) -> Result<LogConfig, Memory>
    ensures { IfOk result (λ config. config ≡ log_config_of logging.now) }
{
    Ok(LogConfig {
        kind: logging.driver.copy(alloc)?,
        config: unless_empty(vars_of(alloc, &logging.options)?),
    })
}
