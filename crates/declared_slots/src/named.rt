ghost use Rattle.std.specs.Prelude.{◌≡◌, ◌++◌, IfOk, codes, decimal};
ghost use Rattle.declared_slots.specs.Named.{has_build, image_of, in_seconds, name_of, policy_in, policy_of, stop_seconds};

use engine_types::Policy;
use std::alloc::Global;
use tree_base::limits::USUAL_STOP_SECONDS;
use tree_base::{Memory, Text};
use typed_project::Service;

/// How many microseconds a second has.
const SECOND: u64 = 1_000_000;

/// The name of a service's container with a number, in a project of this name. Memory where there is no memory for it.
pub fn name(alloc: Global, project: &Text, service: &Service, number: u32) -> Result<Text, Memory>
    ensures { IfOk result (λ name. name ≡ name_of project.now service.now number) }
{
    match service.container_name() {
        Some(name) => name.copy(alloc),
        None => numbered(alloc, project, &service.key, number),
    }
}

fn numbered(alloc: Global, project: &Text, service: &Text, number: u32) -> Result<Text, Memory>
    ensures { IfOk result (λ name. name ≡
        project.now ++ codes "-" ++ service.now ++ codes "-" ++ decimal number) }
{
    let name = format!(in alloc; "{project}-{service}-{number}")?;
    Ok(Text::from_string(name))
}

/// The image of a service, in a project of this name. Memory where there is no memory for it.
pub fn image(alloc: Global, project: &Text, service: &Service) -> Result<Text, Memory>
    ensures { IfOk result (λ image. image ≡ image_of project.now service.now) }
{
    match service.image() {
        Some(image) => image.copy(alloc),
        None => built(alloc, project, &service.key),
    }
}

fn built(alloc: Global, project: &Text, service: &Text) -> Result<Text, Memory>
    ensures { IfOk result (λ image. image ≡ project.now ++ codes "-" ++ service.now) }
{
    let image = format!(in alloc; "{project}-{service}")?;
    Ok(Text::from_string(image))
}

/// When the image of a service is pulled. No memory.
pub fn policy(service: &Service) -> Policy
    ensures { result ≡ policy_of service.now }
{
    match service.pull_policy() {
        Some(word) => policy_in(word.as_str()),
        None => Policy::Missing,
    }
}

fn policy_in(word: &str) -> Policy
    ensures { result ≡ policy_in word.now }
{
    if word == "always" {
        Policy::Always
    } else if word == "never" {
        Policy::Never
    } else {
        Policy::Missing
    }
}

/// Whether a service says how it is built. No memory.
pub fn has_build(service: &Service) -> bool
    ensures { result ≡ has_build service.now }
{
    service.build().is_some()
}

/// How many seconds a stop of a service's containers waits before it kills, rounded up. No memory.
pub fn stop_seconds(service: &Service) -> u64
    ensures { result ≡ stop_seconds service.now }
{
    service
        .stop_grace_period()
        .unwrap_or(USUAL_STOP_SECONDS * SECOND)
        .div_ceil(SECOND)
}
