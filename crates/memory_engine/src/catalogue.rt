ghost use Rattle.std.specs.Prelude.{◌≡◌};
ghost use Rattle.memory_engine.specs.Serving.{can_be_pulled};

use crate::look_ups::is_among;
use tree_base::{List, Text};

/// The names of the images that can be pulled, as they are written.
#[derive(Drop)]
pub enum Catalogue {
    /// Every name.
    All,
    /// These names alone.
    Only(List<Text>),
}

impl Catalogue {
    /// Whether the image with a name can be pulled. No memory.
    pub fn has(&self, name: &Text) -> bool
        ensures { result ≡ can_be_pulled self.now name.now }
    {
        match self {
            Catalogue::All => true,
            Catalogue::Only(names) => is_among(names.as_slice(), name),
        }
    }
}
