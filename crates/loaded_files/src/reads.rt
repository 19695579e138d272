ghost use Rattle.std.specs.Prelude.{◌≡◌, ℕ, ◌≤◌, List, Option, Err};
ghost use Rattle.loaded_files.specs.Reads.{Gives, file_at, file_if_there, look, taken, taken_if, WentAs};
ghost use Rattle.loaded_files.specs.declared.refusal.LoadRefusal.{LoadRefusal};
ghost use Rattle.outside_files.specs.Counts.{Rose};
ghost use Rattle.outside_files.specs.Files.{Contents};

use crate::refusal::LoadRefusal;
use outside_files::{FileAnswer, Files};
use std::alloc::Global;
use tree_base::limits::MOST_FILE_BYTES;
use tree_base::{List, Text};

/// What a read found.
#[derive(Drop)]
pub enum Seen {
    There(List<u8>),
    Longer,
    Missing,
}

/// What stands at a path.
pub fn look<F: Files>(alloc: Global, files: &mut F, path: &Text) -> Result<Seen, LoadRefusal>
    ensures given { Gives (F.told files.old) result (look path.now) }
    ensures fault { (at : List ℕ) → result ≡ Err (LoadRefusal.ReadFault at)
        → Rose (F.faults files.old) (F.faults files.new) }
    ensures reads { WentAs (F.reads files.old) (F.reads files.new) result }
    ensures counted { F.faults files.old ≤ F.faults files.new }
    ensures kept { F.told files.new ≡ F.told files.old }
{
    // Before the read, so that one that fails is always told.
    let failing = path.copy(alloc)?;
    match files.read(alloc, path, MOST_FILE_BYTES) {
        FileAnswer::Bytes(bytes) => Ok(Seen::There(bytes)),
        FileAnswer::Missing => Ok(Seen::Missing),
        FileAnswer::Longer => Ok(Seen::Longer),
        FileAnswer::Failed => Err(LoadRefusal::ReadFault { path: failing }),
        FileAnswer::Memory => Err(LoadRefusal::Memory),
    }
}

/// The bytes that were found, where so many files may still be read, and how many then.
pub(crate) fn taken(
    alloc: Global,
    path: &Text,
    seen: Seen,
    left: u32,
) -> Result<(List<u8>, u32), LoadRefusal>
    ensures given { (told : Option Contents) → Gives told result (taken path.now seen left) }
    ensures fault { (at : List ℕ) → result ≡ Err (LoadRefusal.ReadFault at) → ⊥ }
{
    match seen {
        Seen::There(bytes) => {
            if left == 0 {
                Err(LoadRefusal::TooManyFiles {
                    path: path.copy(alloc)?,
                })
            } else {
                Ok((bytes, left - 1))
            }
        }
        Seen::Longer => {
            if left == 0 {
                Err(LoadRefusal::TooManyFiles {
                    path: path.copy(alloc)?,
                })
            } else {
                Err(LoadRefusal::FileTooLarge {
                    path: path.copy(alloc)?,
                })
            }
        }
        Seen::Missing => Err(LoadRefusal::NotFound {
            path: path.copy(alloc)?,
        }),
    }
}

/// The bytes of a file that has to be there, where so many files may still be read, and how many then.
pub(crate) fn file_at<F: Files>(
    alloc: Global,
    files: &mut F,
    path: &Text,
    left: u32,
) -> Result<(List<u8>, u32), LoadRefusal>
    ensures given { Gives (F.told files.old) result (file_at path.now left) }
    ensures fault { (at : List ℕ) → result ≡ Err (LoadRefusal.ReadFault at)
        → Rose (F.faults files.old) (F.faults files.new) }
    ensures reads { WentAs (F.reads files.old) (F.reads files.new) result }
    ensures counted { F.faults files.old ≤ F.faults files.new }
    ensures kept { F.told files.new ≡ F.told files.old }
{
    let seen = look(alloc, files, path)?;
    taken(alloc, path, seen, left)
}

/// The bytes of a file that may be missing, where so many files may still be read, and how many then.
pub(crate) fn file_if_there<F: Files>(
    alloc: Global,
    files: &mut F,
    path: &Text,
    left: u32,
) -> Result<(Option<List<u8>>, u32), LoadRefusal>
    ensures given { Gives (F.told files.old) result (file_if_there path.now left) }
    ensures fault { (at : List ℕ) → result ≡ Err (LoadRefusal.ReadFault at)
        → Rose (F.faults files.old) (F.faults files.new) }
    ensures reads { WentAs (F.reads files.old) (F.reads files.new) result }
    ensures counted { F.faults files.old ≤ F.faults files.new }
    ensures kept { F.told files.new ≡ F.told files.old }
{
    let seen = look(alloc, files, path)?;
    taken_if(alloc, path, seen, left)
}

fn taken_if(
    alloc: Global,
    path: &Text,
    seen: Seen,
    left: u32,
) -> Result<(Option<List<u8>>, u32), LoadRefusal>
    ensures given { (told : Option Contents) → Gives told result (taken_if path.now seen left) }
    ensures fault { (at : List ℕ) → result ≡ Err (LoadRefusal.ReadFault at) → ⊥ }
{
    match seen {
        Seen::Missing => Ok((None, left)),
        found => {
            let (bytes, left) = taken(alloc, path, found, left)?;
            Ok((Some(bytes), left))
        }
    }
}
