ghost use Rattle.std.specs.Prelude.{◌≡◌};
ghost use Rattle.compose_cli.specs.Runs.{aim_for, options_for};

use asked_project::Command;
use engine_types::{Aim, Purpose, RunOptions};

/// A run that waits for nothing, and is never late.
const UNBOUND: RunOptions = RunOptions {
    wait: false,
    wait_seconds: None,
    stop_seconds: None,
};

/// What a command's run is for; None for `config`, which runs nothing. No memory.
pub fn aim_for(command: &Command) -> Option<Aim>
    ensures { result ≡ aim_for command.now }
{
    match command {
        Command::Up { orphans, .. } => Some(Aim {
            purpose: Purpose::Up,
            orphans: *orphans,
            volumes: false,
        }),
        Command::Down {
            orphans,
            volumes,
            ..
        } => Some(Aim {
            purpose: Purpose::Down,
            orphans: *orphans,
            volumes: *volumes,
        }),
        Command::Config { .. } => None,
        Command::Simulate { .. } => None,
        Command::Wait => None,
        Command::Logs => None,
        Command::EngineSim { .. } => None,
    }
}

/// What a command's options bound of its run. No memory.
pub fn options_for(command: &Command) -> RunOptions
    ensures { result ≡ options_for command.now }
{
    match command {
        Command::Up {
            wait,
            wait_seconds,
            ..
        } => RunOptions {
            wait: *wait,
            wait_seconds: *wait_seconds,
            stop_seconds: None,
        },
        Command::Down { seconds, .. } => RunOptions {
            wait: false,
            wait_seconds: None,
            stop_seconds: *seconds,
        },
        Command::Config { .. } => UNBOUND,
        Command::Simulate { .. } => UNBOUND,
        Command::Wait => UNBOUND,
        Command::Logs => UNBOUND,
        Command::EngineSim { .. } => UNBOUND,
    }
}
