ghost use Rattle.std.specs.Prelude.{◌≡◌, ◌≤◌, [], false, Some, if◌then◌else◌};
ghost use Rattle.outside_files.specs.Counts.{Rose, one_more};
ghost use Rattle.outside_files.specs.Files.{IsReadOf};

use crate::failing::Failing;
use crate::file_read::FileRead;
use crate::files::{FileAnswer, Files};
use std::alloc::Global;
use tree_base::{List, ReservedList, Text, TextMap, TryCopy};

/// Files in memory, of which chosen reads fail.
#[derive(Drop)]
pub struct MemoryFiles {
    files: TextMap<List<u8>>,
    reads: ReservedList<FileRead>,
    failing: Failing,
}

impl MemoryFiles {
    ghost use Rattle.outside_files.specs.FilesInMemory.{contents, failing_reads, read_count, reads_of};
    ghost use Rattle.outside_files.specs.Reads.{is_failed};

    /// These files, of which the reads with these numbers, from 1, fail. No memory.
    pub fn new(alloc: Global, files: TextMap<List<u8>>, fails: List<u64>) -> MemoryFiles
        ensures told { ⟦<MemoryFiles as Files>⟧.told result ≡ Some files }
        ensures asked { reads_of result ≡ [] }
        ensures fails { failing_reads result ≡ fails }
        ensures count { read_count result ≡ 0 }
        ensures faults { ⟦<MemoryFiles as Files>⟧.faults result ≡ 0 }
    {
        MemoryFiles {
            files,
            reads: ReservedList::new(alloc),
            failing: Failing::new(fails),
        }
    }

    /// The reads that were asked for, in order. No memory.
    pub fn reads(&self) -> &[FileRead]
        ensures { result.now ≡ reads_of self.now }
    {
        self.reads.as_slice()
    }

    /// What stands at a path: the next read, where it doesn't fail.
    fn found(&self, alloc: Global, path: &Text, limit: u64) -> FileAnswer
        ensures told { IsReadOf (contents self.now) path.now limit result }
        ensures sound { is_failed result ≡ false }
    {
        let Some(bytes) = self.files.get(path) else {
            return FileAnswer::Missing;
        };
        if bytes.len() as u64 > limit {
            return FileAnswer::Longer;
        }
        match bytes.copy(alloc) {
            Ok(bytes) => FileAnswer::Bytes(bytes),
            Err(_) => FileAnswer::Memory,
        }
    }
}

impl Files for MemoryFiles {
    ghost use Rattle.outside_files.specs.FilesInMemory.{contents, failing_reads, failed_reads, next_read_fails, read_count, reads_of};
    ghost use Rattle.outside_files.specs.Reads.{AddsRead, is_failed, with_read};

    ghost told = { λ memory. Some memory.files };

    ghost reads = { λ memory. memory.reads.items };

    ghost faults = { λ memory. memory.failing.failed };

    /// Reads the file at a path whole. The read fails exactly where its number is among those that are to. Where there is no memory
    /// to note it, it isn't made, and doesn't count.
    fn read(&mut self, alloc: Global, path: &Text, limit: u64) -> FileAnswer
        ensures kept { Some (contents self.new) ≡ Some (contents self.old) }
        ensures reads { AddsRead (reads_of self.old) path.now (reads_of self.new) result }
        ensures counted { failed_reads self.old ≤ failed_reads self.new }
        ensures failed { result ≡ FileAnswer.Failed →
            Rose (failed_reads self.old) (failed_reads self.new) }
        ensures told { IsReadOf (contents self.old) path.now limit result }
        ensures fails { failing_reads self.new ≡ failing_reads self.old }
        ensures unnoted { reads_of self.new ≡ reads_of self.old
            → read_count self.new ≡ read_count self.old }
        ensures uncounted { reads_of self.new ≡ reads_of self.old
            → failed_reads self.new ≡ failed_reads self.old }
        ensures count { reads_of self.new ≡ with_read (reads_of self.old) path.now result
            → read_count self.new ≡ one_more (read_count self.old) }
        ensures fails_as_told { reads_of self.new ≡ with_read (reads_of self.old) path.now result
            → is_failed result ≡ next_read_fails self.old }
        ensures faults { reads_of self.new ≡ with_read (reads_of self.old) path.now result
            → failed_reads self.new ≡ (if next_read_fails self.old
            then one_more (failed_reads self.old) else failed_reads self.old) }
    {
        let Ok(noted) = path.copy(alloc) else {
            return FileAnswer::Memory;
        };
        if self.reads.reserve(1).is_err() {
            return FileAnswer::Memory;
        }
        let failed = self.failing.next_fails();
        let read = FileRead {
            path: noted,
            failed,
        };
        self.reads.push(read).unwrap();
        if failed {
            return FileAnswer::Failed;
        }
        self.found(alloc, path, limit)
    }
}
