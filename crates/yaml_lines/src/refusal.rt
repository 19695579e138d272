ghost use Rattle.std.specs.Prelude.{◌≡◌};
ghost use Rattle.yaml_lines.specs.Printed.{fault_name, place_of_refusal, refusal_name};
ghost use Rattle.yaml_lines.specs.declared.refusal.YamlRefusal.TheVariants as refusals;

use std::error::Error;
use std::fmt;
use tree_base::{Memory, Place};

/// What is wrong with a text.
#[derive(Clone, Copy, Debug)]
pub enum YamlFault {
    /// Bytes that are no UTF-8.
    BadUtf8,
    /// A tab before the first other character of a line.
    TabIndent,
    /// A control character, or a scalar that doesn't begin or end as it should.
    BadScalar,
    /// A line at a column at which nothing can stand.
    BadIndent,
    /// A flow collection that is wrong or isn't closed.
    BadFlow,
    /// A key that the mapping has already.
    RepeatedKey,
    /// An alias to a name that no finished node has.
    UnknownAlias,
    /// A merge key whose value is neither a mapping nor a sequence of mappings.
    BadMerge,
    /// A tag that isn't known, or on a node that can't have it.
    BadTag,
    /// YAML that this profile leaves out.
    Unsupported,
}

impl YamlFault {
    /// The fault's name, as it is printed.
    pub fn name(self) -> &'static str
        ensures { result.now ≡ fault_name self }
    {
        match self {
            YamlFault::BadUtf8 => "BadUtf8",
            YamlFault::TabIndent => "TabIndent",
            YamlFault::BadScalar => "BadScalar",
            YamlFault::BadIndent => "BadIndent",
            YamlFault::BadFlow => "BadFlow",
            YamlFault::RepeatedKey => "RepeatedKey",
            YamlFault::UnknownAlias => "UnknownAlias",
            YamlFault::BadMerge => "BadMerge",
            YamlFault::BadTag => "BadTag",
            YamlFault::Unsupported => "Unsupported",
        }
    }
}

/// Why a text isn't read, with the place of it.
#[derive(Clone, Copy, Debug)]
pub enum YamlRefusal {
    Bad { which: YamlFault, place: Place },
    /// A node that stands deeper than a tree may be.
    TooDeep { place: Place },
    /// The node with which there are more than a tree may have.
    TooManyNodes { place: Place },
    /// The key or scalar with which there is more text than a tree may have.
    TooMuchText { place: Place },
    Memory,
}

impl From<Memory> for YamlRefusal {
    ghost from_gives = { λ _ refusal. refusal ≡ refusals.Memory };

    fn from(_: Memory) -> YamlRefusal {
        YamlRefusal::Memory
    }
}

impl YamlRefusal {
    /// The place of the fault or the limit; None for want of memory.
    pub fn place(&self) -> Option<Place>
        ensures { result ≡ place_of_refusal self.now }
    {
        match self {
            YamlRefusal::Bad { place, .. }
            | YamlRefusal::TooDeep { place }
            | YamlRefusal::TooManyNodes { place }
            | YamlRefusal::TooMuchText { place } => Some(*place),
            YamlRefusal::Memory => None,
        }
    }

    /// The name of the fault or the limit, as it is printed.
    pub fn name(&self) -> &'static str
        ensures { result.now ≡ refusal_name self.now }
    {
        match self {
            YamlRefusal::Bad { which, .. } => which.name(),
            YamlRefusal::TooDeep { .. } => "TooDeep",
            YamlRefusal::TooManyNodes { .. } => "TooManyNodes",
            YamlRefusal::TooMuchText { .. } => "TooMuchText",
            YamlRefusal::Memory => "memory",
        }
    }
}

impl fmt::Display for YamlRefusal {
    ghost use Rattle.std.specs.Prelude.{Some};
    ghost use Rattle.yaml_lines.specs.Printed.{refusal_text};

    ghost output = { λ refusal. Some (refusal_text refusal) };

    /// The line, the column and the name, as in `3:14: BadFlow`.
    fn fmt<W: fmt::Write>(&self, f: &mut fmt::Formatter<W>) -> fmt::Result {
        let name = self.name();
        match self.place() {
            None => f.write_str(name),
            Some(place) => {
                let line = place.line;
                let column = place.column;
                write!(f, "{line}:{column}: {name}")
            }
        }
    }
}

impl Error for YamlRefusal {}
