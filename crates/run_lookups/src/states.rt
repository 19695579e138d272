ghost use Rattle.std.specs.Prelude.{◌≡◌};
ghost use Rattle.run_model.specs.EngineRules.{is_live as is_live_state};
ghost use Rattle.run_model.specs.Labels.{is_lost_state};

use engine_types::ContainerState;

/// Whether a container is running, paused or restarting. No memory.
pub fn is_live(state: ContainerState) -> bool
    ensures { result ≡ is_live_state state }
{
    match state {
        ContainerState::Running | ContainerState::Paused | ContainerState::Restarting => true,
        _ => false,
    }
}

/// Whether a container is on its way out, or couldn't be removed. No memory.
pub(crate) fn is_lost(state: ContainerState) -> bool
    ensures { result ≡ is_lost_state state }
{
    match state {
        ContainerState::Dead | ContainerState::Removing => true,
        _ => false,
    }
}
