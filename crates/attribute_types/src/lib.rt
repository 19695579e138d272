//! The attributes of services, networks, volumes, secrets and configs: the tables that say what stands under each name, a line an
//! attribute, and the typed values that are read there.
//!
//! A table is data (`specs/Tables`): reading, refusing and printing go by it. `kind_of` is the kind of a service's attribute, and
//! `value_named` finds the value that a list of attributes has under a name; their contracts are exact.
#![tactic(auto)]

mod attribute;
mod form;
mod kind;
mod lookups;
mod refusal;
mod rows;
mod table;

pub use attribute::{Attribute, Pairs, Value, value_named};
pub use form::{Form, ItemForm, Plain, Row, WordSet};
pub use kind::{AttrKind, kind_of};
pub use lookups::{
    bool_named, dependencies_named, files_named, health_named, int_named, kept_named,
    logging_named, mounts_named, networks_named, number_named, pairs_named, port_named,
    ports_named, text_named, texts_named, ulimits_named,
};
pub use refusal::{AttributeRefusal, Fault};
pub use rows::{
    Dependency, DependencyCondition, FileUse, HealthCheck, Logging, NetworkUse, Ulimit,
};
pub use table::{
    Line, dependency_lines, file_lines, file_use_lines, form_of, health_lines, logging_lines,
    mount_lines, network_lines, network_use_lines, plain_of, port_lines, ulimit_lines,
    volume_lines,
};
