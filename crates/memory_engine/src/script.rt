use engine_types::Health;
use tree_base::Text;

/// A change of the script, to the container with a name.
#[derive(Drop)]
pub struct Tick {
    pub container: Text,
    pub change: Change,
}

/// What a running container does by itself.
#[derive(Clone, Copy)]
pub enum Change {
    /// It exits with this code.
    Exit(i64),
    /// Its health becomes this.
    Health(Health),
}
