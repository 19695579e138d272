use active_services::ActiveRefusal;
use loaded_files::Kind;
use tree_base::{List, Path, Text};

/// Why a tree gives no project. Each refusal has its exit status and its words.
#[derive(Drop)]
pub enum TreeRefusal {
    /// The project has no name.
    Name(ProjectRefusal),
    /// The project has no active services.
    Active(ActiveRefusal),
    /// What the tree declares is refused.
    Project(ProjectRefusal),
    /// Memory was wanted.
    Memory,
}

/// What is wrong with a project.
#[derive(Drop)]
pub enum ProjectRefusal {
    /// The project's name, or what is left of the directory's name, isn't one.
    BadName {
        name: Text,
    },
    /// The project has more services than the limit.
    TooManyServices {
        count: u32,
    },
    /// No attribute has the name that a path ends with.
    UnknownAttribute {
        path: Path,
    },
    /// What stands at a path is of another kind than its attribute.
    WrongKind {
        path: Path,
    },
    /// What stands at a path isn't a value that its attribute may have, or nothing stands there and has to.
    BadValue {
        path: Path,
    },
    /// A service uses what isn't declared: a network, a volume, another service that it needs, a secret or a config.
    Undefined {
        kind: Kind,
        service: Text,
        name: Text,
    },
    /// Each of the services needs the next, and the last one the first.
    DependencyCycle {
        services: List<Text>,
    },
}
