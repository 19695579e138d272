ghost use Rattle.std.specs.Prelude.{◌≡◌, IfOk, not};
ghost use Rattle.std.specs.Option.{option_copied};
ghost use Rattle.std.specs.Map.{keys_of};
ghost use Rattle.attribute_scalars.specs.Walks.{is_in};
ghost use Rattle.declared_slots.specs.Refusing.{twice_in_order, twice_named, unknown_scale};

use crate::counts::Range;
use compose_words::Scale;
use std::alloc::Global;
use tree_base::{Memory, Text, TextMap};

/// The first service that `--scale` names and that isn't among those whose slots these are. No memory.
pub fn unknown_scale<'a>(scales: &'a [Scale], ranges: &TextMap<Range>) -> Option<&'a Text>
    ensures { option_copied result ≡ unknown_scale scales.now (keys_of ranges.now) }
{
    for scale in scales {
        if is_unknown(ranges, scale) {
            return Some(&scale.service);
        }
    }
    None
}

fn is_unknown(ranges: &TextMap<Range>, scale: &Scale) -> bool
    ensures { result ≡ not (is_in (keys_of ranges.now) scale.now.service) }
{
    ranges.get(&scale.service).is_none()
}

/// The least of names that stands twice. Memory where there is no memory to put them in order.
pub fn twice_named(alloc: Global, names: Vec<Text>) -> Result<Option<Text>, Memory>
    ensures { IfOk result (λ name. name ≡ twice_named names.items) }
{
    let mut order = names;
    order.sort()?;
    match twice_in_order(order.as_slice()) {
        Some(name) => Ok(Some(name.copy(alloc)?)),
        None => Ok(None),
    }
}

/// The first of names in order that stands twice. No memory.
fn twice_in_order(names: &[Text]) -> Option<&Text>
    ensures { option_copied result ≡ twice_in_order names.now }
{
    let (first, others) = names.split_first()?;
    let mut before = first;
    for name in others {
        if before == name {
            return Some(before);
        }
        before = name;
    }
    None
}
