ghost use Rattle.std.specs.Prelude.{◌≡◌, ◌≤◌, ℕ, List, Err, Ok, false};
ghost use Rattle.asked_run.specs.Declaring.{AreDigests, reads_digests};
ghost use Rattle.file_digests.specs.Digests.{WentAs, empty_digests, ends_as};
ghost use Rattle.file_digests.specs.declared.DigestRefusal.{DigestRefusal};
ghost use Rattle.outside_files.specs.Counts.{Rose};
ghost use Rattle.outside_files.specs.Reads.{Well};

use compose_words::Command;
use file_digests::{DigestRefusal, digests, empty_digests};
use outside_files::Files;
use service_hashes::FileDigest;
use std::alloc::Global;
use tree_base::{List, Memory};
use typed_project::Project;

/// The digests by which a command has its project declared: `up` reads the files of configs and secrets, and for the others
/// each digest is the empty text.
pub(crate) fn digests_for<F: Files>(
    alloc: Global,
    command: &Command,
    project: &Project,
    files: &mut F,
) -> Result<List<FileDigest>, DigestRefusal>
    ensures given { (result ≡ Err DigestRefusal.Memory → ⊥)
        → AreDigests (F.told files.old) command.now project.now result }
    ensures fault { (at : List ℕ) → result ≡ Err (DigestRefusal.ReadFault at)
        → Rose (F.faults files.old) (F.faults files.new) }
    ensures reads { WentAs (F.reads files.old) (F.reads files.new) result }
    ensures unread { reads_digests command.now ≡ false → F.reads files.new ≡ F.reads files.old }
    ensures counted { F.faults files.old ≤ F.faults files.new }
    ensures kept { F.told files.new ≡ F.told files.old }
{
    match command {
        Command::Up { .. } => digests(alloc, files, project),
        Command::Down { .. } => unread_digests(alloc, project),
        Command::Config { .. } => unread_digests(alloc, project),
        Command::Simulate { .. } => unread_digests(alloc, project),
        Command::Wait => unread_digests(alloc, project),
        Command::Logs => unread_digests(alloc, project),
        Command::EngineSim { .. } => unread_digests(alloc, project),
    }
}

/// The digests where no file is read.
fn unread_digests(alloc: Global, project: &Project) -> Result<List<FileDigest>, DigestRefusal>
    ensures given { (result ≡ Err DigestRefusal.Memory → ⊥)
        → result ≡ Ok (empty_digests project.now) }
    ensures unread { (at : List ℕ) → result ≡ Err (DigestRefusal.ReadFault at) → ⊥ }
    ensures well { ends_as result ≡ Well }
{
    match empty_digests(alloc, project) {
        Ok(digests) => Ok(digests),
        Err(Memory) => Err(DigestRefusal::Memory),
    }
}
