ghost use Rattle.std.specs.Prelude.{◌≡◌, codes};
ghost use Rattle.std.specs.Option.{option_copied};
ghost use Rattle.attribute_types.specs.Lookups.{bool_at, number_at, pairs_at, text_at, texts_at};

use crate::service::Service;
use attribute_types::{Pairs, bool_named, number_named, pairs_named, text_named, texts_named};
use tree_base::{List, Text};

/// What runs in the container.
impl Service {
    /// The words of the command that is run in the container. No memory.
    pub fn command(&self) -> Option<&List<Text>>
        ensures { option_copied result ≡ texts_at self.now.attributes (codes "command") }
    {
        texts_named(self.attributes.as_slice(), "command")
    }

    /// The words that stand before the command. No memory.
    pub fn entrypoint(&self) -> Option<&List<Text>>
        ensures { option_copied result ≡ texts_at self.now.attributes (codes "entrypoint") }
    {
        texts_named(self.attributes.as_slice(), "entrypoint")
    }

    /// The variables of the container. No memory.
    pub fn environment(&self) -> Option<&Pairs>
        ensures { option_copied result ≡ pairs_at self.now.attributes (codes "environment") }
    {
        pairs_named(self.attributes.as_slice(), "environment")
    }

    /// The image; there is none where the service is built. No memory.
    pub fn image(&self) -> Option<&Text>
        ensures { option_copied result ≡ text_at self.now.attributes (codes "image") }
    {
        text_named(self.attributes.as_slice(), "image")
    }

    /// Whether an init process runs first in the container. No memory.
    pub fn init(&self) -> Option<bool>
        ensures { result ≡ bool_at self.now.attributes (codes "init") }
    {
        bool_named(self.attributes.as_slice(), "init")
    }

    /// Whether the standard input stays open. No memory.
    pub fn stdin_open(&self) -> Option<bool>
        ensures { result ≡ bool_at self.now.attributes (codes "stdin_open") }
    {
        bool_named(self.attributes.as_slice(), "stdin_open")
    }

    /// How long a stop waits before it kills, in microseconds. No memory.
    pub fn stop_grace_period(&self) -> Option<u64>
        ensures { result ≡ number_at self.now.attributes (codes "stop_grace_period") }
    {
        number_named(self.attributes.as_slice(), "stop_grace_period")
    }

    /// The signal that stops the container. No memory.
    pub fn stop_signal(&self) -> Option<&Text>
        ensures { option_copied result ≡ text_at self.now.attributes (codes "stop_signal") }
    {
        text_named(self.attributes.as_slice(), "stop_signal")
    }

    /// Whether the container has a terminal. No memory.
    pub fn tty(&self) -> Option<bool>
        ensures { result ≡ bool_at self.now.attributes (codes "tty") }
    {
        bool_named(self.attributes.as_slice(), "tty")
    }

    /// The user who runs the command. No memory.
    pub fn user(&self) -> Option<&Text>
        ensures { option_copied result ≡ text_at self.now.attributes (codes "user") }
    {
        text_named(self.attributes.as_slice(), "user")
    }

    /// The directory in which the command runs. No memory.
    pub fn working_dir(&self) -> Option<&Text>
        ensures { option_copied result ≡ text_at self.now.attributes (codes "working_dir") }
    {
        text_named(self.attributes.as_slice(), "working_dir")
    }
}
