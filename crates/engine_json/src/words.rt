ghost use Rattle.std.specs.Prelude.{◌≡◌};
ghost use Rattle.response_rules.specs.Replies.{health_named, state_of};

use engine_types::{ContainerState, Health};

/// The state that a word of the API names (`State.Status` of a container); None for another word.
pub(crate) fn state_of(word: &str) -> Option<ContainerState>
    ensures { result ≡ state_of word.now }
{
    match word {
        "created" => Some(ContainerState::Created),
        "running" => Some(ContainerState::Running),
        "paused" => Some(ContainerState::Paused),
        "restarting" => Some(ContainerState::Restarting),
        "removing" => Some(ContainerState::Removing),
        "exited" => Some(ContainerState::Exited),
        "dead" => Some(ContainerState::Dead),
        _ => None,
    }
}

/// The health that a word of the API names (`State.Health.Status`); None for another word.
pub(crate) fn health_named(word: &str) -> Option<Health>
    ensures { result ≡ health_named word.now }
{
    match word {
        "none" => Some(Health::Absent),
        "starting" => Some(Health::Starting),
        "healthy" => Some(Health::Healthy),
        "unhealthy" => Some(Health::Unhealthy),
        _ => None,
    }
}
