ghost use Rattle.std.specs.Prelude.{◌≡◌, ◌+◌, ◌++◌, IfOk, OnOk, map};
ghost use Rattle.std.specs.List.{range_with_len};
ghost use Rattle.std.specs.Option.{option_map};
ghost use Rattle.declared_set.specs.declared.refusal.IdentityRefusal.{IdentityRefusal};
ghost use Rattle.declared_slots.specs.Counts.{ranges_of};
ghost use Rattle.declared_slots.specs.Named.{name_of};
ghost use Rattle.declared_slots.specs.Refusing.{twice_named, unknown_scale};
ghost use Rattle.std.specs.Map.{keys_of};
ghost use Rattle.declared_set.specs.Refusing.{names_of, refusal_of, too_many};

use crate::refusal::IdentityRefusal;
use declared_slots::{Range, Scale, name, need_count, scale, twice_named, unknown_scale};
use std::alloc::Global;
use tree_base::limits::MOST_NEEDS;
use tree_base::{Memory, Text, TextMap};
use typed_project::{Project, Service};

/// For what a project's declared set is refused, where these are the slots of its services. Memory where there is no memory to find out.
pub(crate) fn refusal_of(
    alloc: Global,
    project: &Project,
    scales: &[Scale],
    ranges: &TextMap<Range>,
) -> Result<Option<IdentityRefusal>, Memory>
    requires ranges { ranges.now ≡ ranges_of scales.now project.now.services }
    requires keys { keys_of ranges.now ≡ map (λ service. service.key) project.now.services }
    ensures { IfOk result (λ refusal. refusal ≡ refusal_of project.now scales.now) }
{
    let services = project.services.as_slice();
    match unknown_service(alloc, scales, ranges)? {
        Some(refusal) => Ok(Some(refusal)),
        None => match too_many(need_count(ranges, services)) {
            Some(refusal) => Ok(Some(refusal)),
            None => name_twice(alloc, project, scales),
        },
    }
}

/// The refusal where a number is of no service.
fn unknown_service(
    alloc: Global,
    scales: &[Scale],
    ranges: &TextMap<Range>,
) -> Result<Option<IdentityRefusal>, Memory>
    ensures { IfOk result (λ refusal. refusal
        ≡ option_map IdentityRefusal.UnknownScale (unknown_scale scales.now (keys_of ranges.now))) }
{
    match unknown_scale(scales, ranges) {
        Some(service) => Ok(Some(IdentityRefusal::UnknownScale(service.copy(alloc)?))),
        None => Ok(None),
    }
}

fn too_many(count: u64) -> Option<IdentityRefusal>
    ensures { result ≡ too_many count }
{
    if count <= MOST_NEEDS {
        None
    } else {
        Some(IdentityRefusal::TooManyNeeds(count))
    }
}

/// The refusal where two slots have one name.
fn name_twice(
    alloc: Global,
    project: &Project,
    scales: &[Scale],
) -> Result<Option<IdentityRefusal>, Memory>
    ensures { IfOk result (λ refusal. refusal
        ≡ option_map IdentityRefusal.NameTwice (twice_named (names_of project.now scales.now))) }
{
    let names = names_of(alloc, project, scales)?;
    match twice_named(alloc, names)? {
        Some(name) => Ok(Some(IdentityRefusal::NameTwice(name))),
        None => Ok(None),
    }
}

/// The names of all containers of a project.
fn names_of(alloc: Global, project: &Project, scales: &[Scale]) -> Result<Vec<Text>, Memory>
    ensures { IfOk result (λ names. names.items ≡ names_of project.now scales.now) }
{
    let mut names = Vec::new(alloc);
    let services = project.services.as_slice();
    for service in services {
        put_names(
            alloc,
            &project.name,
            service,
            scale(scales, service)?,
            &mut names,
        )?;
    }
    Ok(names)
}

/// Puts the names of so many containers of a service last.
fn put_names(
    alloc: Global,
    project: &Text,
    service: &Service,
    count: u32,
    names: &mut Vec<Text>,
) -> Result<(), Memory>
    ensures { OnOk result (names.new.items ≡ names.old.items
        ++ map (name_of project.now service.now) (range_with_len 1 count)) }
{
    for before in 0..count {
        names.push(name(alloc, project, service, number_behind(before)?)?)?;
    }
    Ok(())
}

/// The number of a container that so many stand before. Memory where there are more than 32 bits number.
pub(crate) fn number_behind(before: u32) -> Result<u32, Memory>
    ensures { IfOk result (λ number. number ≡ 1 + before) }
{
    before.checked_add(1).ok_or(Memory)
}
