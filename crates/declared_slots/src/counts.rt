ghost use Rattle.std.specs.Prelude.{◌≡◌, ◌+◌, IfOk, map};
ghost use Rattle.std.specs.List.{IsDistinct};
ghost use Rattle.std.specs.Str.{bytes_eq};
ghost use Rattle.declared_slots.specs.Counts.{number_given, ranges_of, scale_of};
ghost use Rattle.declared_slots.specs.Needs.{range_of};

use crate::deploy::replicas_of;
use compose_words::Scale;
use std::alloc::Global;
use tree_base::{Memory, Text, TextMap};
use typed_project::Service;

/// The slots of a service: how many stand before the first of them, and how many there are.
#[derive(Clone, Copy, Debug, PartialEq, Eq, Drop)]
pub struct Range {
    pub first: u32,
    pub count: u32,
}

/// The slots of each service by its key. Memory where there is no memory for them, or where 32 bits don't number them.
pub fn ranges(
    alloc: Global,
    scales: &[Scale],
    services: &[Service],
) -> Result<TextMap<Range>, Memory>
    requires { IsDistinct bytes_eq (map (λ service. service.key) services.now) }
    ensures { IfOk result (λ ranges. ranges ≡ ranges_of scales.now services.now) }
{
    let mut ranges = TextMap::new(alloc);
    let mut first = 0u32;
    for service in services {
        let count = scale(scales, service)?;
        ranges.put(service.key.copy(alloc)?, Range { first, count })?;
        first = behind(first, count)?;
    }
    Ok(ranges)
}

/// The slots of the service with a key; a service that isn't there has none. No memory.
pub(crate) fn range_of(ranges: &TextMap<Range>, key: &Text) -> Range
    ensures { result ≡ range_of ranges.now key.now }
{
    match ranges.get(key) {
        Some(range) => *range,
        None => Range { first: 0, count: 0 },
    }
}

/// The place behind so many slots from a first one on. Memory where 32 bits don't number it.
pub(crate) fn behind(first: u32, count: u32) -> Result<u32, Memory>
    ensures { IfOk result (λ place. place ≡ first + count) }
{
    first.checked_add(count).ok_or(Memory)
}

/// How many containers a service has. Memory where that is more than 32 bits number.
pub fn scale(scales: &[Scale], service: &Service) -> Result<u32, Memory>
    ensures { IfOk result (λ count. count ≡ scale_of scales.now service.now) }
{
    u32::try_from(scale_of(scales, service)).map_err(|_| Memory)
}

/// How many containers a service has. No memory.
pub(crate) fn scale_of(scales: &[Scale], service: &Service) -> u64
    ensures { result ≡ scale_of scales.now service.now }
{
    match number_given(scales, service) {
        Some(number) => u64::from(number),
        None => match service.scale() {
            Some(number) => number,
            None => replicas_of(service).unwrap_or(1),
        },
    }
}

/// The number that `--scale` gives a service.
fn number_given(scales: &[Scale], service: &Service) -> Option<u32>
    ensures { result ≡ number_given scales.now service.now }
{
    let found = scales
        .iter()
        .find(|scale| scale.service.as_str() == service.key.as_str())?;
    Some(found.number)
}
