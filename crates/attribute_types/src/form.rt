/// Texts of which an attribute has one (Compose Specification, at each attribute).
#[derive(Clone, Copy, Debug, PartialEq, Eq, Drop)]
pub enum WordSet {
    /// Of `network_mode`.
    NetworkModes,
    /// Of `pull_policy`.
    PullPolicies,
    /// Of `restart`, where `on-failure:N` stands beside them.
    Restarts,
    /// Of `ipc` and `pid`: any text that doesn't begin with `service:` or `container:`.
    OwnNamespaces,
    /// Of the `type` of a mount.
    MountTypes,
    /// Of the `protocol` of a port.
    Protocols,
    /// Of the `selinux` of a mount.
    Labels,
    /// Of the `condition` of a dependency.
    Conditions,
}

/// What each text of a list is.
#[derive(Clone, Copy, Debug, PartialEq, Eq, Drop)]
pub enum ItemForm {
    /// `HOST[:CONTAINER[:PERMISSIONS]]`.
    Device,
    /// `PORT[/PROTOCOL]`.
    Exposed,
    /// `PATH[:OPTIONS]`.
    Tmpfs,
    /// Any text but one that names the file of a profile of system calls.
    SecurityOption,
}

/// What stands at an attribute, where no attribute stands below it.
#[derive(Clone, Copy, Debug, PartialEq, Eq, Drop)]
pub enum Plain {
    Text,
    Bool,
    /// A bool that is kept where it is true.
    Flag,
    Num,
    Int,
    List,
    /// A list whose texts have a form.
    Items(ItemForm),
    Pairs,
    /// Pairs in which null is the empty text.
    Labels,
    Argv,
    Duration,
    Size,
    Decimal,
    /// One of some words.
    Word(WordSet),
    /// A mapping that is kept.
    Kept,
    /// How many containers a service has, at most 100; what `deploy` says of it is the same.
    Scale,
    /// A mapping that is kept, of which the number of containers and the order of updates are asked.
    Deploy,
    /// The mode of a service's network, beside which no network stands.
    NetworkMode,
    /// A flag beside which nothing but `name` stands.
    External,
    /// The command of a health check, whose first item says how it is run.
    Test,
    /// The port of a container.
    PortTarget,
    /// The port of the host, or a range of ports.
    Published,
    /// The source of a mount: no `:` stands in that of a bind.
    Source,
    /// A path in the container, in which no `:` stands.
    Target,
    /// The options of a bind.
    Bind,
    /// The options of a volume, of which there are none.
    NoOptions,
    /// What is read and dropped, whatever its form is.
    Dropped,
}

/// What stands at an attribute that has attributes of its own.
#[derive(Clone, Copy, Debug, PartialEq, Eq, Drop)]
pub enum Row {
    Ulimits,
    Logging,
    Ports,
    Mounts,
    Secrets,
    Configs,
    Networks,
    HealthCheck,
    Dependencies,
}

/// What stands at a service's attribute.
#[derive(Clone, Copy, Debug, PartialEq, Eq, Drop)]
pub enum Form {
    Plain(Plain),
    Own(Row),
    /// What loading has made use of.
    Consumed,
}
