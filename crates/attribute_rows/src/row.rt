ghost use Rattle.std.specs.Prelude.{◌≡◌};
ghost use Rattle.tree_base.specs.declared.Tree.{out-Tree};
ghost use Rattle.attribute_types.specs.Answers.{Gives};
ghost use Rattle.attribute_scalars.specs.Lists.{if_any};
ghost use Rattle.attribute_rows.specs.Rows.{row_value};

use crate::files::{Files, file_uses_of};
use crate::health::health_of;
use crate::mounts::mounts_of;
use crate::needs::dependencies_of;
use crate::networks::network_uses_of;
use crate::ports::ports_of;
use crate::settings::{logging_of, ulimits_of};
use attribute_types::{AttributeRefusal, Row, Value};
use std::alloc::Global;
use tree_base::{List, Tree};

/// The value of an attribute that has attributes of its own, of a tree that isn't null; None where it is as good as none.
/// Refusals have the path from this attribute down to the first that is wrong.
pub fn row_value(alloc: Global, row: Row, tree: &Tree) -> Result<Option<Value>, AttributeRefusal>
    ensures { Gives result (row_value row (out-Tree tree.now)) }
{
    match row {
        Row::Ulimits => Ok(if_any(ulimits_of(alloc, tree)?).map(Value::Ulimits)),
        Row::Logging => logging_of(alloc, tree),
        Row::Ports => Ok(if_any(ports_of(alloc, tree)?).map(Value::Ports)),
        Row::Mounts => Ok(if_any(mounts_of(alloc, tree)?).map(Value::Mounts)),
        Row::Secrets => Ok(if_any(file_uses_of(alloc, Files::Secrets, tree)?).map(Value::Files)),
        Row::Configs => Ok(if_any(file_uses_of(alloc, Files::Configs, tree)?).map(Value::Files)),
        Row::Networks => Ok(if_any(network_uses_of(alloc, tree)?).map(Value::Networks)),
        Row::HealthCheck => health_of(alloc, tree),
        Row::Dependencies => Ok(if_any(dependencies_of(alloc, tree)?).map(Value::Dependencies)),
    }
}

/// A list that isn't empty.
fn if_any<T: Drop>(list: List<T>) -> Option<List<T>>
    ensures { result ≡ if_any list }
{
    if list.is_empty() {
        drop(list);
        None
    } else {
        Some(list)
    }
}
