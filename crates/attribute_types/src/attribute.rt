ghost use Rattle.std.specs.Prelude.{◌≡◌};
ghost use Rattle.std.specs.Option.{option_copied};
ghost use Rattle.attribute_types.specs.Values.{value_at};

use crate::rows::{Dependency, FileUse, HealthCheck, Logging, NetworkUse, Ulimit};
use short_forms::{Mount, Port};
use tree_base::{List, Text, TextMap, Tree};

/// Texts, or nothing, under distinct names, in byte order of these.
pub type Pairs = TextMap<Option<Text>>;

/// The value of an attribute, a variant for each form that is printed in its own way.
#[derive(Drop)]
pub enum Value {
    Text(Text),
    Bool(bool),
    Num(u64),
    Int(i64),
    List(List<Text>),
    Pairs(Pairs),
    Argv(List<Text>),
    /// In microseconds.
    Duration(u64),
    /// In bytes.
    Size(u64),
    /// In billionths.
    Decimal(u64),
    /// Of a container, from 1 to 65,535.
    Port(u32),
    /// A mapping as it is read, with the keys of each mapping in byte order.
    Kept(Tree),
    Ulimits(List<Ulimit>),
    Logging(Logging),
    Ports(List<Port>),
    Mounts(List<Mount>),
    Files(List<FileUse>),
    Networks(List<NetworkUse>),
    HealthCheck(HealthCheck),
    Dependencies(List<Dependency>),
}

/// An attribute that is there.
#[derive(Drop)]
pub struct Attribute {
    pub name: Text,
    pub value: Value,
}

/// The value under a name; None where no attribute has it. No memory.
pub fn value_named<'a>(attributes: &'a [Attribute], name: &str) -> Option<&'a Value>
    ensures { option_copied result ≡ value_at attributes.now name.now }
{
    let found = attributes
        .iter()
        .find(|attribute| attribute.name.as_str() == name)?;
    Some(&found.value)
}
