ghost use Rattle.std.specs.Prelude.{◌≡◌, ◌≤◌, [], None};
ghost use Rattle.outside_files.specs.Counts.{Rose};
ghost use Rattle.outside_files.specs.Reads.{is_failed};
ghost use Rattle.outside_files.specs.declared.files.FileAnswer.TheVariants.{Failed};

use crate::file_read::FileRead;
use crate::files::{FileAnswer, Files};
use std::alloc::Global;
use std::io::{Error, ErrorKind, Read};
use std::{fs, rt};
use tree_base::{List, ReservedList, Text};

/// The files of the disk. It tells no content, keeps each read that it was asked for, and counts each that failed.
#[derive(Drop)]
pub struct DiskFiles<'r, R: rt::Files> {
    rt: &'r R,
    reads: ReservedList<FileRead>,
    failed: u64,
}

impl<'r, R: rt::Files> DiskFiles<'r, R> {
    /// The files that the runtime reaches. No memory.
    pub fn new(alloc: Global, rt: &'r R) -> DiskFiles<'r, R>
        ensures { ⟦<DiskFiles<'r, R> as Files>⟧.reads result ≡ [] }
    {
        DiskFiles {
            rt,
            reads: ReservedList::new(alloc),
            failed: 0,
        }
    }

    /// What a read answers, which isn't noted yet.
    fn answer(&mut self, alloc: Global, path: &Text, limit: u64) -> FileAnswer
        ensures failed { result ≡ Failed → Rose self.old.failed self.new.failed }
        ensures never_falls { self.old.failed ≤ self.new.failed }
        ensures reads { self.new.reads ≡ self.old.reads }
    {
        let mut file = match fs::open(self.rt, path.as_str()) {
            Ok(file) => file,
            Err(error) => return self.answer_to(error),
        };
        match read_within(alloc, &mut file, limit) {
            Ok(Some(bytes)) => FileAnswer::Bytes(bytes),
            Ok(None) => FileAnswer::Longer,
            Err(error) => self.answer_to(error),
        }
    }

    fn answer_to(&mut self, error: Error) -> FileAnswer
        ensures failed { result ≡ Failed → Rose self.old.failed self.new.failed }
        ensures never_falls { self.old.failed ≤ self.new.failed }
        ensures reads { self.new.reads ≡ self.old.reads }
    {
        match error.kind() {
            ErrorKind::NotFound => FileAnswer::Missing,
            ErrorKind::OutOfMemory => FileAnswer::Memory,
            _ => {
                self.failed = self.failed.saturating_add(1);
                FileAnswer::Failed
            }
        }
    }
}

impl<'r, R: rt::Files> Files for DiskFiles<'r, R> {
    ghost told = { λ _. None };

    ghost reads = { λ files. files.reads.items };

    ghost faults = { λ files. files.failed };

    fn read(&mut self, alloc: Global, path: &Text, limit: u64) -> FileAnswer {
        let Ok(noted) = path.copy(alloc) else {
            return FileAnswer::Memory;
        };
        if self.reads.reserve(1).is_err() {
            return FileAnswer::Memory;
        }
        let answer = self.answer(alloc, path, limit);
        let read = FileRead {
            path: noted,
            failed: is_failed(&answer),
        };
        self.reads.push(read).unwrap();
        answer
    }
}

/// Whether a read failed. No memory.
fn is_failed(answer: &FileAnswer) -> bool
    ensures { result ≡ is_failed answer.now }
{
    match answer {
        FileAnswer::Failed => true,
        FileAnswer::Bytes(_) | FileAnswer::Missing | FileAnswer::Longer | FileAnswer::Memory => {
            false
        }
    }
}

/// All bytes of a reader, or None where there are more than the limit.
fn read_within<F: Read>(
    alloc: Global,
    file: &mut F,
    limit: u64,
) -> Result<Option<List<u8>>, Error> {
    let mut bytes = Vec::new(alloc);
    let mut room = [0u8; 16384];
    for _ in 0..u64::MAX {
        let taken = file.read(&mut room)?;
        if taken == 0 {
            break;
        }
        if taken as u64 > limit.saturating_sub(bytes.len() as u64) {
            return Ok(None);
        }
        bytes.extend_from_slice(&room[..taken])?;
    }
    Ok(Some(List::from_vec(bytes)))
}
