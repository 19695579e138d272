ghost use Rattle.std.specs.Prelude.{◌≡◌};
ghost use Rattle.engine_replies.specs.Replies.{reason_of};
ghost use Rattle.engine_replies.specs.Values.{health_word, state_word};

use engine_types::{ContainerState, Health};

/// The word of a state (`State.Status` of a container).
pub(crate) fn state_word(state: ContainerState) -> &'static str
    ensures { result.now ≡ state_word state }
{
    match state {
        ContainerState::Created => "created",
        ContainerState::Running => "running",
        ContainerState::Paused => "paused",
        ContainerState::Restarting => "restarting",
        ContainerState::Removing => "removing",
        ContainerState::Exited => "exited",
        ContainerState::Dead => "dead",
    }
}

/// The word of a health (`State.Health.Status`).
pub(crate) fn health_word(health: Health) -> &'static str
    ensures { result.now ≡ health_word health }
{
    match health {
        Health::Absent => "none",
        Health::Starting => "starting",
        Health::Healthy => "healthy",
        Health::Unhealthy => "unhealthy",
    }
}

/// The reason phrase of a status (RFC 9110, section 15).
pub(crate) fn reason_of(status: u16) -> &'static str
    ensures { result.now ≡ reason_of status }
{
    if status == 200 {
        "OK"
    } else if status == 201 {
        "Created"
    } else if status == 204 {
        "No Content"
    } else if status == 304 {
        "Not Modified"
    } else if status == 400 {
        "Bad Request"
    } else if status == 403 {
        "Forbidden"
    } else if status == 404 {
        "Not Found"
    } else {
        "Conflict"
    }
}
