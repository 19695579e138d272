ghost use Rattle.std.specs.Prelude.{◌≡◌, IfOk, codes, false, unwrap_or};
ghost use Rattle.tree_base.specs.declared.Tree.{out-Tree};
ghost use Rattle.attribute_types.specs.Answers.{Gives};
ghost use Rattle.attribute_rows.specs.Rows.{check_from, check_or_none, health_of, no_check};
ghost use Rattle.attribute_types.specs.Lookups.{bool_at};

use crate::entries::{NO_NAMES, fields_in};
use crate::texts::texts_in;
use attribute_types::{
    Attribute, AttributeRefusal, HealthCheck, Value, bool_named, health_lines, number_named,
};
use std::alloc::Global;
use tree_base::{List, Memory, Text, Tree};

/// How health is asked, where something is said of it.
pub(crate) fn health_of(alloc: Global, tree: &Tree) -> Result<Option<Value>, AttributeRefusal>
    ensures { Gives result (health_of (out-Tree tree.now)) }
{
    let attributes = fields_in(alloc, health_lines(), &NO_NAMES, tree)?;
    if attributes.is_empty() {
        return Ok(None);
    }
    Ok(Some(Value::HealthCheck(check_or_none(alloc, attributes.as_slice())?)))
}

/// A health check by its attributes; one that is said to be disabled is none, whatever else is said.
fn check_or_none(alloc: Global, attributes: &[Attribute]) -> Result<HealthCheck, Memory>
    ensures { IfOk result (λ check. check ≡
        check_or_none (unwrap_or (bool_at attributes.now (codes "disable")) false) attributes.now) }
{
    if bool_named(attributes, "disable") == Some(true) {
        no_check(alloc)
    } else {
        check_from(alloc, attributes)
    }
}

/// A health check that is never made.
fn no_check(alloc: Global) -> Result<HealthCheck, Memory>
    ensures { IfOk result (λ check. check ≡ no_check) }
{
    let mut test = List::new(alloc);
    test.push(Text::from_str(alloc, "NONE")?)?;
    Ok(HealthCheck {
        test: Some(test),
        interval: None,
        timeout: None,
        start_period: None,
        start_interval: None,
        retries: None,
        disable: None,
    })
}

fn check_from(alloc: Global, attributes: &[Attribute]) -> Result<HealthCheck, Memory>
    ensures { IfOk result (λ check. check ≡ check_from attributes.now) }
{
    Ok(HealthCheck {
        test: texts_in(alloc, attributes, "test")?,
        interval: number_named(attributes, "interval"),
        timeout: number_named(attributes, "timeout"),
        start_period: number_named(attributes, "start_period"),
        start_interval: number_named(attributes, "start_interval"),
        retries: number_named(attributes, "retries"),
        disable: bool_named(attributes, "disable"),
    })
}
