ghost use Rattle.std.specs.Prelude.{◌≡◌, IfOk};

use engine_types::Report;
use std::alloc::Global;
use std::marker::Model;
use std::sync::Arc;
use tree_base::{Memory, Text};

/// The id of a container that was looked at, which several looks share. Contracts see it as that id.
#[derive(Drop)]
pub struct SharedId {
    inner: Arc<Text>,
}

impl Model for SharedId {
    ghost use Rattle.std.specs.Prelude.{List, ℕ};

    ghost Value = { List ℕ };

    ghost view = { λ id. id.inner.value };
}

impl SharedId {
    /// Moves an id to the heap, where one log has it.
    pub fn new(alloc: Global, id: Text) -> Result<SharedId, Memory>
        ensures { IfOk result (λ shared. shared ≡ id) }
    {
        Ok(SharedId {
            inner: Arc::new(alloc, id)?,
        })
    }

    /// The id. No memory.
    pub fn get(&self) -> &Text
        ensures { result.now ≡ self.now }
    {
        &self.inner
    }

    /// The same id once more. It allocates nothing, and fails only where the count of its owners is full.
    pub fn share(&self) -> Result<SharedId, Memory>
        ensures { IfOk result (λ shared. shared ≡ self.now) }
    {
        Ok(SharedId {
            inner: self.inner.clone()?,
        })
    }
}

/// A look at the container with this id, which was answered with this report, in 40 bytes.
#[derive(Drop)]
pub struct Look {
    /// How many exchanges that are kept whole were made before it.
    pub behind: usize,
    pub id: SharedId,
    pub report: Report,
}
