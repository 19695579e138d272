ghost use Rattle.std.specs.Prelude.{◌≡◌};
ghost use Rattle.std.specs.Option.{option_copied};
ghost use Rattle.attribute_types.specs.Lookups.{bool_at, dependencies_at, files_at, health_at, int_at, kept_at, logging_at, mounts_at, networks_at, number_at, pairs_at, port_at, ports_at, text_at, texts_at, ulimits_at};

use crate::attribute::{Attribute, Pairs, Value, value_named};
use crate::rows::{Dependency, FileUse, HealthCheck, Logging, NetworkUse, Ulimit};
use short_forms::{Mount, Port};
use tree_base::{List, Text, Tree};

/// The text under a name; None where none stands there. No memory.
pub fn text_named<'a>(attributes: &'a [Attribute], name: &str) -> Option<&'a Text>
    ensures { option_copied result ≡ text_at attributes.now name.now }
{
    match value_named(attributes, name) {
        Some(Value::Text(text)) => Some(text),
        _ => None,
    }
}

/// The bool under a name; None where none stands there. No memory.
pub fn bool_named(attributes: &[Attribute], name: &str) -> Option<bool>
    ensures { result ≡ bool_at attributes.now name.now }
{
    match value_named(attributes, name) {
        Some(Value::Bool(given)) => Some(*given),
        _ => None,
    }
}

/// The number under a name: a count, microseconds, bytes or billionths, by its form; None where none stands there. No memory.
pub fn number_named(attributes: &[Attribute], name: &str) -> Option<u64>
    ensures { result ≡ number_at attributes.now name.now }
{
    match value_named(attributes, name) {
        Some(Value::Num(number)) => Some(*number),
        Some(Value::Duration(micros)) => Some(*micros),
        Some(Value::Size(bytes)) => Some(*bytes),
        Some(Value::Decimal(billionths)) => Some(*billionths),
        _ => None,
    }
}

/// The port under a name; None where none stands there. No memory.
pub fn port_named(attributes: &[Attribute], name: &str) -> Option<u32>
    ensures { result ≡ port_at attributes.now name.now }
{
    match value_named(attributes, name) {
        Some(Value::Port(port)) => Some(*port),
        _ => None,
    }
}

/// The number under a name that may be -1; None where none stands there. No memory.
pub fn int_named(attributes: &[Attribute], name: &str) -> Option<i64>
    ensures { result ≡ int_at attributes.now name.now }
{
    match value_named(attributes, name) {
        Some(Value::Int(number)) => Some(*number),
        _ => None,
    }
}

/// The texts under a name; None where none stand there. No memory.
pub fn texts_named<'a>(attributes: &'a [Attribute], name: &str) -> Option<&'a List<Text>>
    ensures { option_copied result ≡ texts_at attributes.now name.now }
{
    match value_named(attributes, name) {
        Some(Value::List(texts)) => Some(texts),
        Some(Value::Argv(texts)) => Some(texts),
        _ => None,
    }
}

/// The pairs under a name; None where none stand there. No memory.
pub fn pairs_named<'a>(attributes: &'a [Attribute], name: &str) -> Option<&'a Pairs>
    ensures { option_copied result ≡ pairs_at attributes.now name.now }
{
    match value_named(attributes, name) {
        Some(Value::Pairs(pairs)) => Some(pairs),
        _ => None,
    }
}

/// The mapping that is kept under a name; None where nothing of this form stands there. No memory.
pub fn kept_named<'a>(attributes: &'a [Attribute], name: &str) -> Option<&'a Tree>
    ensures { option_copied result ≡ kept_at attributes.now name.now }
{
    match value_named(attributes, name) {
        Some(Value::Kept(tree)) => Some(tree),
        _ => None,
    }
}

/// Limits under a name; None where nothing of this form stands there. No memory.
pub fn ulimits_named<'a>(attributes: &'a [Attribute], name: &str) -> Option<&'a List<Ulimit>>
    ensures { option_copied result ≡ ulimits_at attributes.now name.now }
{
    match value_named(attributes, name) {
        Some(Value::Ulimits(limits)) => Some(limits),
        _ => None,
    }
}

/// Where output goes under a name; None where nothing of this form stands there. No memory.
pub fn logging_named<'a>(attributes: &'a [Attribute], name: &str) -> Option<&'a Logging>
    ensures { option_copied result ≡ logging_at attributes.now name.now }
{
    match value_named(attributes, name) {
        Some(Value::Logging(logging)) => Some(logging),
        _ => None,
    }
}

/// Ports under a name; None where nothing of this form stands there. No memory.
pub fn ports_named<'a>(attributes: &'a [Attribute], name: &str) -> Option<&'a List<Port>>
    ensures { option_copied result ≡ ports_at attributes.now name.now }
{
    match value_named(attributes, name) {
        Some(Value::Ports(ports)) => Some(ports),
        _ => None,
    }
}

/// Mounts under a name; None where nothing of this form stands there. No memory.
pub fn mounts_named<'a>(attributes: &'a [Attribute], name: &str) -> Option<&'a List<Mount>>
    ensures { option_copied result ≡ mounts_at attributes.now name.now }
{
    match value_named(attributes, name) {
        Some(Value::Mounts(mounts)) => Some(mounts),
        _ => None,
    }
}

/// Uses of secrets or configs under a name; None where nothing of this form stands there. No memory.
pub fn files_named<'a>(attributes: &'a [Attribute], name: &str) -> Option<&'a List<FileUse>>
    ensures { option_copied result ≡ files_at attributes.now name.now }
{
    match value_named(attributes, name) {
        Some(Value::Files(files)) => Some(files),
        _ => None,
    }
}

/// Networks that are joined under a name; None where nothing of this form stands there. No memory.
pub fn networks_named<'a>(attributes: &'a [Attribute], name: &str) -> Option<&'a List<NetworkUse>>
    ensures { option_copied result ≡ networks_at attributes.now name.now }
{
    match value_named(attributes, name) {
        Some(Value::Networks(networks)) => Some(networks),
        _ => None,
    }
}

/// A health check under a name; None where nothing of this form stands there. No memory.
pub fn health_named<'a>(attributes: &'a [Attribute], name: &str) -> Option<&'a HealthCheck>
    ensures { option_copied result ≡ health_at attributes.now name.now }
{
    match value_named(attributes, name) {
        Some(Value::HealthCheck(check)) => Some(check),
        _ => None,
    }
}

/// Dependencies under a name; None where nothing of this form stands there. No memory.
pub fn dependencies_named<'a>(
    attributes: &'a [Attribute],
    name: &str,
) -> Option<&'a List<Dependency>>
    ensures { option_copied result ≡ dependencies_at attributes.now name.now }
{
    match value_named(attributes, name) {
        Some(Value::Dependencies(needs)) => Some(needs),
        _ => None,
    }
}
