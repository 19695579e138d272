ghost use Rattle.std.specs.Prelude.{◌≡◌, IfOk};
ghost use Rattle.std.specs.Option.{option_copied};
ghost use Rattle.progress_board.specs.Subjects.{id_in, is_settled, subject_of};

use engine_types::{ContainerState, Health, Outcome, Reply, Report, Request};
use std::alloc::Global;
use tree_base::{Memory, Text};

/// What a board learns from the outcome of a request.
#[derive(Drop)]
pub enum Subject {
    /// The name of what was made: a container or a network.
    Made(Text),
    /// How the container with this id is.
    LookedAt(Text),
    /// The names of what is listed, or nothing.
    Other,
}

/// What a board learns from the outcome of a request.
pub(crate) fn subject_of(alloc: Global, request: &Request) -> Result<Subject, Memory>
    ensures { IfOk result (λ subject. subject ≡ subject_of request.now) }
{
    match request {
        Request::Create { name, .. } => Ok(Subject::Made(name.copy(alloc)?)),
        Request::MakeNetwork { spec } => Ok(Subject::Made(spec.name.copy(alloc)?)),
        Request::Inspect { id } => Ok(Subject::LookedAt(id.copy(alloc)?)),
        _ => Ok(Subject::Other),
    }
}

/// The id of the container or network that a request speaks of. No memory.
pub(crate) fn id_in(request: &Request) -> Option<&Text>
    ensures { option_copied result ≡ id_in request.now }
{
    match request {
        Request::Inspect { id } => Some(id),
        Request::Logs { id } => Some(id),
        Request::Start { id } => Some(id),
        Request::Stop { id, .. } => Some(id),
        Request::Remove { id } => Some(id),
        Request::RemoveNetwork { id } => Some(id),
        Request::Connect { container, .. } => Some(container),
        _ => None,
    }
}

/// Whether a container is in a state that it may stay in: it is healthy or not, or it doesn't run any more. No memory.
pub(crate) fn is_settled(report: &Report) -> bool
    ensures { result ≡ is_settled report.now }
{
    let is_over = matches!(
        report.state,
        ContainerState::Exited | ContainerState::Dead | ContainerState::Removing
    );
    is_over || matches!(report.health, Health::Healthy | Health::Unhealthy)
}
