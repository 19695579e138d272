ghost use Rattle.std.specs.Prelude.{◌≡◌, ℕ, ◌≤◌, List as Items, Option, IfSome};
ghost use Rattle.outside_files.specs.Counts.{Rose};
ghost use Rattle.outside_files.specs.Files.{Contents, IsReadOf};
ghost use Rattle.outside_files.specs.Reads.{AddsRead};
ghost use Rattle.outside_files.specs.declared.file_read.FileRead.{FileRead};

use std::alloc::Global;
use tree_base::{List, Text};

/// What a read of a file answers.
#[derive(Drop)]
pub enum FileAnswer {
    Bytes(List<u8>),
    Missing,
    /// The file has more bytes than the limit.
    Longer,
    Failed,
    Memory,
}

/// Files that are read by their paths.
pub trait Files: Drop {
    /// The bytes of the files under their paths, where they are told.
    ghost told: { Self → Option Contents };

    /// The reads that they were asked for, in order, and which of them failed.
    ghost reads: { Self → Items FileRead };

    /// How many reads failed.
    ghost faults: { Self → ℕ };

    /// Reads the file at a path whole, where it has at most `limit` bytes. Failed comes only where the count
    /// of faults rose.
    fn read(&mut self, alloc: Global, path: &Text, limit: u64) -> FileAnswer
        ensures kept { told self.new ≡ told self.old }
        ensures reads { AddsRead (reads self.old) path.now (reads self.new) result }
        ensures counted { faults self.old ≤ faults self.new }
        ensures failed { result ≡ FileAnswer.Failed → Rose (faults self.old) (faults self.new) }
        ensures told { IfSome (told self.old) (λ files. IsReadOf files path.now limit result) };
}
