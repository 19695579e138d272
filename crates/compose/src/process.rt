ghost use Rattle.std.specs.Prelude.{◌≡◌, Option, None, IfOk, IfSome};
ghost use Rattle.compose.specs.Given.{Given};

use std::alloc::Global;
use std::env::{Env, FillError};
use std::fs::{self, Metadata};
use std::io::ErrorKind;
use std::os::unix::fs::MetadataExt;
use tree_base::{List, Memory};

/// What the program is given by whoever starts it, as bytes.
pub(crate) trait Process {
    /// That, where it is told.
    ghost told: { Self → Option Given };

    /// The words of the command line, the program's name first.
    fn words(&self, alloc: Global) -> Result<List<List<u8>>, Memory>
        ensures { IfSome (told self.now) (λ given.
            IfOk result (λ words. words ≡ given.words)) };

    /// The variables, each as `NAME=VALUE`.
    fn variables(&self, alloc: Global) -> Result<List<List<u8>>, Memory>
        ensures { IfSome (told self.now) (λ given.
            IfOk result (λ entries. entries ≡ given.variables)) };

    /// The path of the working directory from the root, without links in it; None where it can't be read.
    fn directory(&self, alloc: Global) -> Result<Option<List<u8>>, Memory>
        ensures { IfSome (told self.now) (λ given.
            IfOk result (λ path. path ≡ given.directory)) };

    /// Whether a path leads to the working directory.
    fn is_directory(&self, path: &str) -> bool
        ensures { IfSome (told self.now) (λ given. result ≡ given.leads path.now) };
}

/// How many bytes of a word or variable are asked for at first.
const FIRST_ROOM: usize = 256;

/// The longest path that the system gives.
const LONGEST_PATH: usize = 4096;

/// The process itself tells nothing of what it is given.
impl Process for HostRuntime {
    ghost told = { λ _. None };

    fn words(&self, alloc: Global) -> Result<List<List<u8>>, Memory> {
        all_of(alloc, self, Kind::Word)
    }

    fn variables(&self, alloc: Global) -> Result<List<List<u8>>, Memory> {
        all_of(alloc, self, Kind::Variable)
    }

    fn directory(&self, alloc: Global) -> Result<Option<List<u8>>, Memory> {
        let mut room = [0u8; LONGEST_PATH];
        match self.current_dir(&mut room) {
            Ok(length) => path_in(alloc, &room[..length]),
            Err(error) if error.kind() == ErrorKind::OutOfMemory => Err(Memory),
            Err(_) => Ok(None),
        }
    }

    fn is_directory(&self, path: &str) -> bool {
        match (fs::metadata(self, path), fs::metadata(self, ".")) {
            (Ok(found), Ok(own)) => are_one(&found, &own),
            _ => false,
        }
    }
}

/// Whether both are of one file.
fn are_one(found: &Metadata, own: &Metadata) -> bool {
    found.dev() == own.dev() && found.ino() == own.ino()
}

/// A path that begins at the root; else the system could give none.
fn path_in(alloc: Global, bytes: &[u8]) -> Result<Option<List<u8>>, Memory> {
    if !bytes.starts_with(b"/") {
        return Ok(None);
    }
    let mut path = List::new(alloc);
    path.extend_from_slice(bytes)?;
    Ok(Some(path))
}

/// What the system has a list of.
#[derive(Clone, Copy)]
enum Kind {
    Word,
    Variable,
}

fn all_of(alloc: Global, rt: &HostRuntime, kind: Kind) -> Result<List<List<u8>>, Memory> {
    let mut all = List::new(alloc);
    for place in 0..usize::MAX {
        match one_of(alloc, rt, kind, place)? {
            Some(bytes) => all.push(bytes)?,
            None => return Ok(all),
        }
    }
    Err(Memory)
}

/// The one at a place, from 0; None behind the last. It is asked for with ever more room.
fn one_of(
    alloc: Global,
    rt: &HostRuntime,
    kind: Kind,
    place: usize,
) -> Result<Option<List<u8>>, Memory> {
    let mut size = FIRST_ROOM;
    for _ in 0..usize::BITS {
        let mut room = Vec::new(alloc);
        room.resize(size, 0u8)?;
        match fill(rt, kind, place, room.as_mut_slice()) {
            Ok(length) => {
                room.truncate(length);
                return Ok(Some(List::from_vec(room)));
            }
            Err(FillError::NotPresent) => return Ok(None),
            Err(FillError::TooLong) => size = size.saturating_mul(2),
        }
    }
    Err(Memory)
}

fn fill(rt: &HostRuntime, kind: Kind, place: usize, room: &mut [u8]) -> Result<usize, FillError> {
    match kind {
        Kind::Word => rt.arg(place, room),
        Kind::Variable => rt.var_at(place, room),
    }
}
