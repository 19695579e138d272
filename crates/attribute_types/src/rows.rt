use crate::attribute::Pairs;
use tree_base::{List, Text};

/// A limit on what a container's processes take (Compose Specification, "ulimits"). A number alone is both.
#[derive(Drop)]
pub struct Ulimit {
    pub key: Text,
    pub soft: i64,
    pub hard: i64,
}

/// Where a container's output goes (Compose Specification, "logging").
#[derive(Drop)]
pub struct Logging {
    pub driver: Option<Text>,
    pub options: Pairs,
}

/// A secret or a config that a service uses (Compose Specification, "secrets", "configs").
#[derive(Drop)]
pub struct FileUse {
    /// The key of the secret or config.
    pub source: Text,
    /// Where the container sees it.
    pub target: Text,
    pub uid: Option<Text>,
    pub gid: Option<Text>,
    pub mode: Option<Text>,
}

/// A network that a service joins, under its key (Compose Specification, "networks").
#[derive(Drop)]
pub struct NetworkUse {
    pub key: Text,
    pub aliases: List<Text>,
}

/// How a container's health is asked (Compose Specification, "healthcheck"). Durations are in microseconds.
#[derive(Drop)]
pub struct HealthCheck {
    pub test: Option<List<Text>>,
    pub interval: Option<u64>,
    pub timeout: Option<u64>,
    pub start_period: Option<u64>,
    pub start_interval: Option<u64>,
    pub retries: Option<u64>,
    pub disable: Option<bool>,
}

/// What a service waits for (Compose Specification, "depends_on").
#[derive(Clone, Copy, Debug, PartialEq, Eq, Drop)]
pub enum DependencyCondition {
    /// `service_started`.
    Started,
    /// `service_healthy`.
    Healthy,
    /// `service_completed_successfully`.
    Completed,
}

/// A service that another one needs, under its key.
#[derive(Drop)]
pub struct Dependency {
    pub key: Text,
    pub condition: DependencyCondition,
    pub required: bool,
    pub restart: bool,
}
