use tree_base::{Env, List, Text, Tree};

/// What was loaded: the tree, the project directory, the project's own files and the variables.
#[derive(Drop)]
pub struct Loaded {
    pub tree: Tree,
    pub directory: Text,
    /// The absolute paths of the Compose files that a call names, or of the default one, in order; not of those that they extend
    /// or include.
    pub files: List<Text>,
    pub env: Env,
}
