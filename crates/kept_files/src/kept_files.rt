ghost use Rattle.std.specs.Prelude.{◌≡◌, ◌≤◌, ◌⊎◌, [], IfSome, None, Some, if◌then◌else◌};
ghost use Rattle.kept_files.specs.Keeping.{KeepsAs, kept_of, with_bytes};
ghost use Rattle.outside_files.specs.Counts.{Rose};
ghost use Rattle.outside_files.specs.Files.{IsReadOf};
ghost use Rattle.outside_files.specs.Reads.{AddsRead};
ghost use Rattle.outside_files.specs.declared.files.FileAnswer.{FileAnswer};
ghost use Rattle.tree_base.specs.Entries.{with_entry};

use outside_files::{FileAnswer, Files};
use std::alloc::Global;
use tree_base::{List, Text, TextMap, TryCopy};

/// The bytes that were read, under their paths.
pub type Kept = TextMap<List<u8>>;

/// Files whose reads are handed on to others, and kept.
#[derive(Drop)]
pub struct KeptFiles<F> {
    files: F,
    kept: Option<Kept>,
}

impl<F: Files> KeptFiles<F> {
    /// The same files, of which is kept what is read, where that is wanted. No memory.
    pub fn new(alloc: Global, files: F, is_wanted: bool) -> KeptFiles<F>
        ensures told { ⟦<KeptFiles<F> as Files>⟧.told result ≡ F.told files }
        ensures reads { ⟦<KeptFiles<F> as Files>⟧.reads result ≡ F.reads files }
        ensures faults { ⟦<KeptFiles<F> as Files>⟧.faults result ≡ F.faults files }
        ensures kept { kept_of result ≡ (if is_wanted then Some [] else None) }
    {
        let kept = if is_wanted {
            Some(TextMap::new(alloc))
        } else {
            None
        };
        KeptFiles { files, kept }
    }

    /// What was kept; None where nothing is any more. No memory.
    pub fn into_kept(self) -> Option<Kept>
        ensures { result ≡ kept_of self }
    {
        let KeptFiles { files, kept } = self;
        drop(files);
        kept
    }
}

impl<F: Files> Files for KeptFiles<F> {
    ghost told = { λ kept. F.told kept.files };

    ghost reads = { λ kept. F.reads kept.files };

    ghost faults = { λ kept. F.faults kept.files };

    /// Reads as the files under these do, and keeps what was read.
    fn read(&mut self, alloc: Global, path: &Text, limit: u64) -> FileAnswer
        ensures kept { F.told self.new.files ≡ F.told self.old.files }
        ensures reads { AddsRead (F.reads self.old.files) path.now (F.reads self.new.files) result }
        ensures counted { F.faults self.old.files ≤ F.faults self.new.files }
        ensures failed { result ≡ FileAnswer.Failed →
            Rose (F.faults self.old.files) (F.faults self.new.files) }
        ensures told { IfSome (F.told self.old.files) (λ files.
            IsReadOf files path.now limit result) }
        ensures keeps { KeepsAs (kept_of self.old) path.now result (kept_of self.new) }
    {
        let answer = self.files.read(alloc, path, limit);
        let kept = self.kept.take();
        self.kept = kept_after(alloc, kept, path, &answer);
        answer
    }
}

/// What is kept after a read. Nothing where there is no memory for it.
fn kept_after(alloc: Global, kept: Option<Kept>, path: &Text, answer: &FileAnswer) -> Option<Kept>
    ensures { KeepsAs kept path.now answer.now result }
{
    match answer {
        FileAnswer::Bytes(bytes) => with_bytes(alloc, kept?, path, bytes),
        FileAnswer::Missing | FileAnswer::Longer | FileAnswer::Failed | FileAnswer::Memory => kept,
    }
}

/// What is kept with the bytes of one more read.
fn with_bytes(alloc: Global, kept: Kept, path: &Text, bytes: &List<u8>) -> Option<Kept>
    ensures { (result ≡ with_bytes kept path.now bytes.now) ⊎ (result ≡ None) }
{
    match kept.get(path) {
        Some(earlier) => {
            let is_same = earlier.as_slice() == bytes.as_slice();
            if is_same { Some(kept) } else { None }
        }
        None => with_entry(alloc, kept, path, bytes),
    }
}

fn with_entry(alloc: Global, kept: Kept, path: &Text, bytes: &List<u8>) -> Option<Kept>
    ensures { (result ≡ Some (with_entry kept path.now bytes.now)) ⊎ (result ≡ None) }
{
    let mut kept = kept;
    let (Ok(path), Ok(bytes)) = (path.copy(alloc), bytes.copy(alloc)) else {
        return None;
    };
    match kept.put(path, bytes) {
        Ok(_) => Some(kept),
        Err(_) => None,
    }
}
