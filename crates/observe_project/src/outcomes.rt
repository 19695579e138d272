ghost use Rattle.std.specs.Prelude.{◌≡◌, IfOk};
ghost use Rattle.std.specs.Option.{option_copied};
ghost use Rattle.run_model.specs.Observation.{fault_in};
ghost use Rattle.observe_project.specs.Reading.{OrMemory, containers_told, fault_or_memory, id_told, networks_told, or_memory, pull_error, tells_missing, tells_pulled, volumes_told};

use engine_types::{Exchange, Listed, NetRow, Outcome, Reply, SeenFault};
use std::alloc::Global;
use tree_base::{List, Memory, Text, TryCopy};

/// The rows of a listing of containers.
pub(crate) fn containers_told(outcome: &Outcome) -> Option<&List<Listed>>
    ensures { option_copied result ≡ containers_told outcome.now }
{
    match outcome {
        Outcome::Answered(Reply::Containers(rows)) => Some(rows),
        _ => None,
    }
}

/// The rows of a listing of networks.
pub(crate) fn networks_told(outcome: &Outcome) -> Option<&List<NetRow>>
    ensures { option_copied result ≡ networks_told outcome.now }
{
    match outcome {
        Outcome::Answered(Reply::Networks(rows)) => Some(rows),
        _ => None,
    }
}

/// The names of a listing of volumes.
pub(crate) fn volumes_told(outcome: &Outcome) -> Option<&List<Text>>
    ensures { option_copied result ≡ volumes_told outcome.now }
{
    match outcome {
        Outcome::Answered(Reply::Volumes(names)) => Some(names),
        _ => None,
    }
}

/// The id of an image.
pub(crate) fn id_told(outcome: &Outcome) -> Option<&Text>
    ensures { option_copied result ≡ id_told outcome.now }
{
    match outcome {
        Outcome::Answered(Reply::ImageId(id)) => Some(id),
        _ => None,
    }
}

/// Whether an image isn't there: 404.
pub(crate) fn tells_missing(outcome: &Outcome) -> bool
    ensures { result ≡ tells_missing outcome.now }
{
    match outcome {
        Outcome::Answered(Reply::Refused { status, .. }) => *status == 404,
        _ => false,
    }
}

/// Whether an image was pulled.
pub(crate) fn tells_pulled(outcome: &Outcome) -> bool
    ensures { result ≡ tells_pulled outcome.now }
{
    match outcome {
        Outcome::Answered(Reply::Pulled) => true,
        _ => false,
    }
}

/// The message of an error in the stream of a pull.
pub(crate) fn pull_error(outcome: &Outcome) -> Option<&Text>
    ensures { option_copied result ≡ pull_error outcome.now }
{
    match outcome {
        Outcome::Answered(Reply::PullFailed(message)) => Some(message),
        _ => None,
    }
}

/// The fault of an exchange without the reply that was asked for, or want of memory.
pub(crate) fn fault_in(alloc: Global, exchange: &Exchange) -> SeenFault
    ensures { OrMemory (fault_in exchange.now.request exchange.now.outcome) result }
{
    fault_or_memory(copy_fault(alloc, exchange))
}

fn copy_fault(alloc: Global, exchange: &Exchange) -> Result<SeenFault, Memory>
    ensures { IfOk result (λ fault. fault ≡ fault_in exchange.now.request exchange.now.outcome) }
{
    match &exchange.outcome {
        Outcome::Answered(Reply::Refused { status, message }) => {
            let message = message.copy(alloc)?;
            let request = exchange.request.copy(alloc)?;
            Ok(SeenFault::RequestFailed {
                request,
                status: *status,
                message,
            })
        }
        Outcome::Answered(_) => Ok(SeenFault::RequestFailed {
            request: exchange.request.copy(alloc)?,
            status: 0,
            message: Text::new(alloc),
        }),
        Outcome::Lost(cause) => Ok(SeenFault::Lost {
            request: exchange.request.copy(alloc)?,
            cause: *cause,
        }),
        Outcome::NotSent => Ok(SeenFault::NotSent {
            request: exchange.request.copy(alloc)?,
        }),
        Outcome::Memory => Ok(SeenFault::Memory),
    }
}

/// The fault that was made, or want of memory in its place.
pub(crate) fn fault_or_memory(made: Result<SeenFault, Memory>) -> SeenFault
    ensures { result ≡ fault_or_memory made }
{
    match made {
        Ok(fault) => fault,
        Err(_) => SeenFault::Memory,
    }
}

/// Want of memory as a fault of the observation.
pub(crate) fn or_memory<T: Drop>(answer: Result<T, Memory>) -> Result<T, SeenFault>
    ensures { result ≡ or_memory answer }
{
    match answer {
        Ok(value) => Ok(value),
        Err(_) => Err(SeenFault::Memory),
    }
}
