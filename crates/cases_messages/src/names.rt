use case_files::{Fields, Reading};
use engine_types::{Condition, ContainerState, Health, Kind, Policy, Purpose, Report};

/// The report of a container, by its `state`, `exit_code` and `health`.
pub fn report_of(reading: &mut Reading, fields: &Fields) -> Report {
    Report {
        state: state_at(reading, fields),
        exit_code: code_at(reading, fields),
        health: health_at(reading, fields),
    }
}

/// The state under the key `state`, `created` where it isn't there.
pub fn state_at(reading: &mut Reading, fields: &Fields) -> ContainerState {
    let word = reading.text_or(fields, "state", "created");
    state_of(reading, word.as_str())
}

fn code_at(reading: &mut Reading, fields: &Fields) -> i64 {
    let word = reading.text_or(fields, "exit_code", "0");
    code_of(reading, word.as_str())
}

fn health_at(reading: &mut Reading, fields: &Fields) -> Health {
    let word = reading.text_or(fields, "health", "absent");
    health_of(reading, word.as_str())
}

/// The exit code of a decimal.
pub fn code_of(reading: &mut Reading, word: &str) -> i64 {
    match word.parse::<i64>() {
        Ok(code) => code,
        Err(_) => {
            reading.refuse_word("an exit code", word);
            0
        }
    }
}

/// The state of a word.
pub fn state_of(reading: &mut Reading, word: &str) -> ContainerState {
    match word {
        "created" => ContainerState::Created,
        "running" => ContainerState::Running,
        "paused" => ContainerState::Paused,
        "restarting" => ContainerState::Restarting,
        "removing" => ContainerState::Removing,
        "exited" => ContainerState::Exited,
        "dead" => ContainerState::Dead,
        _ => {
            reading.refuse_word("a state", word);
            ContainerState::Created
        }
    }
}

/// The word of a state.
pub fn state_word(state: ContainerState) -> &'static str {
    match state {
        ContainerState::Created => "created",
        ContainerState::Running => "running",
        ContainerState::Paused => "paused",
        ContainerState::Restarting => "restarting",
        ContainerState::Removing => "removing",
        ContainerState::Exited => "exited",
        ContainerState::Dead => "dead",
    }
}

/// The health of a word.
pub fn health_of(reading: &mut Reading, word: &str) -> Health {
    match word {
        "absent" => Health::Absent,
        "starting" => Health::Starting,
        "healthy" => Health::Healthy,
        "unhealthy" => Health::Unhealthy,
        _ => {
            reading.refuse_word("a health", word);
            Health::Absent
        }
    }
}

/// The word of a health.
pub fn health_word(health: Health) -> &'static str {
    match health {
        Health::Absent => "absent",
        Health::Starting => "starting",
        Health::Healthy => "healthy",
        Health::Unhealthy => "unhealthy",
    }
}

/// The condition of a word.
pub fn condition_of(reading: &mut Reading, word: &str) -> Condition {
    match word {
        "started" => Condition::Started,
        "healthy" => Condition::Healthy,
        "completed" => Condition::Completed,
        "running" => Condition::Running,
        _ => {
            reading.refuse_word("a condition", word);
            Condition::Running
        }
    }
}

/// The pull policy of a word.
pub fn policy_of(reading: &mut Reading, word: &str) -> Policy {
    match word {
        "always" => Policy::Always,
        "missing" => Policy::Missing,
        "never" => Policy::Never,
        _ => {
            reading.refuse_word("a policy", word);
            Policy::Missing
        }
    }
}

/// The kind of a word.
pub fn kind_of(reading: &mut Reading, word: &str) -> Kind {
    match word {
        "service" => Kind::Service,
        "network" => Kind::Network,
        "volume" => Kind::Volume,
        "secret" => Kind::Secret,
        "config" => Kind::Config,
        _ => {
            reading.refuse_word("a kind", word);
            Kind::Service
        }
    }
}

/// The purpose of a word, `up` or `down`; None of another one. No memory.
pub fn purpose_of(word: &str) -> Option<Purpose> {
    match word {
        "up" => Some(Purpose::Up),
        "down" => Some(Purpose::Down),
        _ => None,
    }
}
