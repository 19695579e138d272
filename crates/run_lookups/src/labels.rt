ghost use Rattle.std.specs.Prelude.{◌≡◌, IfOk};
ghost use Rattle.run_model.specs.EngineRules.{has_label, is_of_project};
ghost use Rattle.run_model.specs.Labels.{has_declared_service, is_of_slot, names_service, names_slot};

use engine_types::{Declared, Pairs, Slot, label, labels};
use std::alloc::Global;
use tree_base::{Memory, Text};

/// Whether a label has a value. No memory.
pub fn has_label(pairs: &Pairs, name: &str, value: &str) -> bool
    ensures { result ≡ has_label pairs.now name.now value.now }
{
    label(pairs, name).is_some_and(|own| value == own.as_str())
}

/// Whether labels are those of a container of a project that wasn't made for one run of a command. No memory.
pub fn is_of_project(project: &Text, pairs: &Pairs) -> bool
    ensures { result ≡ is_of_project project.now pairs.now }
{
    has_label(pairs, labels::PROJECT, project.as_str())
        && has_label(pairs, labels::ONEOFF, labels::NOT_ONEOFF)
}

/// Whether labels name a service. No memory.
pub fn names_service(service: &Text, pairs: &Pairs) -> bool
    ensures { result ≡ names_service service.now pairs.now }
{
    has_label(pairs, labels::SERVICE, service.as_str())
}

/// Whether labels name a declared service. No memory.
pub fn has_declared_service(declared: &Declared, pairs: &Pairs) -> bool
    ensures { result ≡ has_declared_service declared.now pairs.now }
{
    declared
        .services
        .as_slice()
        .iter()
        .any(|service| names_service(&service.key, pairs))
}

/// Whether labels name a slot: its service, and its number in decimal.
pub fn names_slot(alloc: Global, slot: &Slot, pairs: &Pairs) -> Result<bool, Memory>
    ensures { IfOk result (λ names. names ≡ names_slot slot.now pairs.now) }
{
    if !names_service(&slot.service, pairs) {
        return Ok(false);
    }
    let number = slot.number;
    let decimal = format!(in alloc; "{number}")?;
    Ok(has_label(pairs, labels::NUMBER, decimal.as_str()))
}

/// Whether labels are those of a container of a project and of one of its slots.
pub fn is_of_slot(alloc: Global, project: &Text, slot: &Slot, pairs: &Pairs) -> Result<bool, Memory>
    ensures { IfOk result (λ is. is ≡ is_of_slot project.now slot.now pairs.now) }
{
    if !is_of_project(project, pairs) {
        return Ok(false);
    }
    names_slot(alloc, slot, pairs)
}
