ghost use Rattle.std.specs.Prelude.{◌≡◌, ℕ, List};
ghost use Rattle.named_items.specs.Names.{network_name, volume_name};

use attribute_types::FileUse;
use tree_base::Text;
use typed_project::{Network, Volume};

/// What is known by a name.
pub trait Named {
    /// The name.
    ghost known: { Self → List ℕ };

    /// The name. No memory.
    fn known_as(&self) -> &Text
        ensures { result.now ≡ known self.now };
}

/// A text is its own name.
impl Named for Text {
    ghost known = { λ text. text };

    fn known_as(&self) -> &Text {
        self
    }
}

/// The Engine knows a network by its name, or else by its key.
impl Named for Network {
    ghost known = { network_name };

    fn known_as(&self) -> &Text {
        match self.name() {
            Some(name) => name,
            None => &self.key,
        }
    }
}

/// The Engine knows a volume by its name, or else by its key.
impl Named for Volume {
    ghost known = { volume_name };

    fn known_as(&self) -> &Text {
        match self.name() {
            Some(name) => name,
            None => &self.key,
        }
    }
}

/// A secret or a config that is used is known by its key.
impl Named for FileUse {
    ghost known = { λ used. used.source };

    fn known_as(&self) -> &Text {
        &self.source
    }
}
