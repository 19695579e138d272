use tree_base::{List, Text};
use typed_project::Project;

/// A project with what it was loaded from.
#[derive(Drop)]
pub struct LoadedProject {
    pub project: Project,
    /// The absolute paths of its own Compose files, in order; not of those that they extend or include.
    pub files: List<Text>,
    /// The project directory, absolute.
    pub directory: Text,
}
