ghost use Rattle.std.specs.Prelude.{◌≡◌, IfOk};
ghost use Rattle.tree_base.specs.Answers.{Gives};
ghost use Rattle.typed_project.specs.DistinctNames.{IsKeyed};
ghost use Rattle.declared_set.specs.Declaring.{declared, declared_of, wants_memory};
ghost use Rattle.declared_slots.specs.Counts.{ranges_of};

use crate::loaded_project::LoadedProject;
use crate::refusal::IdentityRefusal;
use crate::refusing::refusal_of;
use crate::services::services_of;
use crate::slots::{Ground, slots_of};
use declared_resources::{networks, volumes};
use declared_slots::{Range, Scale, awaited, ranges};
use engine_types::Declared;
use service_hashes::FileDigest;
use std::alloc::Global;
use tree_base::{Memory, TextMap};

/// What a project declares that was loaded so, where services have the numbers of `--scale` and its files these digests (Compose
/// Specification; the names and labels of Docker Compose). The refusals, in their order: `UnknownScale` for the first number that is
/// of no service, `TooManyNeeds` for more than 4,000,000 needs of all slots, and `NameTwice` for the least name that two containers
/// have.
pub fn declare(
    alloc: Global,
    loaded: &LoadedProject,
    scales: &[Scale],
    digests: &[FileDigest],
) -> Result<Declared, IdentityRefusal>
    requires { IsKeyed loaded.now.project }
    ensures { Gives wants_memory result (declared loaded.now scales.now digests.now) }
{
    let project = &loaded.project;
    let ranges = ranges(alloc, scales, project.services.as_slice())?;
    match refusal_of(alloc, project, scales, &ranges)? {
        Some(refusal) => Err(refusal),
        None => Ok(declared_of(alloc, loaded, scales, digests, &ranges)?),
    }
}

/// What a project declares that isn't refused, where these are the slots of its services.
fn declared_of(
    alloc: Global,
    loaded: &LoadedProject,
    scales: &[Scale],
    digests: &[FileDigest],
    ranges: &TextMap<Range>,
) -> Result<Declared, Memory>
    requires keyed { IsKeyed loaded.now.project }
    requires ranges { ranges.now ≡ ranges_of scales.now loaded.now.project.services }
    ensures { IfOk result (λ declared. declared ≡ declared_of loaded.now scales.now digests.now) }
{
    let project = &loaded.project;
    let awaited = awaited(alloc, scales, project.services.as_slice())?;
    let networks = networks(alloc, project)?;
    let ground = Ground {
        loaded,
        ranges,
        networks: networks.as_slice(),
        awaited: &awaited,
        digests,
    };
    let slots = slots_of(alloc, scales, &ground)?;
    let services = services_of(alloc, project.services.as_slice())?;
    let volumes = volumes(alloc, project)?;
    Ok(Declared {
        project: project.name.copy(alloc)?,
        slots,
        services,
        networks,
        volumes,
    })
}
