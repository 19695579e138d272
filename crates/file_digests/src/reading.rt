ghost use Rattle.std.specs.Prelude.{◌≡◌, ◌++◌, ℕ, ◌≤◌, List, Err, IfOk};
ghost use Rattle.outside_files.specs.Counts.{Rose};
ghost use Rattle.outside_files.specs.Reads.{answered_as};
ghost use Rattle.outside_files.specs.declared.files.FileAnswer.{FileAnswer};
ghost use Rattle.file_digests.specs.Digests.{AreDigested, Digested, MayAnswer, WentAs, digest_of, digest_read, ends_as};

use crate::refusal::DigestRefusal;
use engine_types::Kind;
use outside_files::{FileAnswer, Files};
use service_hashes::FileDigest;
use sha2::{Digest, Sha256};
use std::alloc::Global;
use tree_base::limits::MOST_FILE_BYTES;
use tree_base::{List, Memory, Text};
use typed_project::{FileItem, Project};

/// The digests of the files of a project's configs and then of its secrets, in the order of their keys, or the refusal of the first
/// file that there is none of. A file has at most 4,194,304 bytes.
pub fn digests<F: Files>(
    alloc: Global,
    files: &mut F,
    project: &Project,
) -> Result<List<FileDigest>, DigestRefusal>
    ensures given { (result ≡ Err DigestRefusal.Memory → ⊥)
        → AreDigested (F.told files.old) project.now result }
    ensures fault { (at : List ℕ) → result ≡ Err (DigestRefusal.ReadFault at)
        → Rose (F.faults files.old) (F.faults files.new) }
    ensures reads { WentAs (F.reads files.old) (F.reads files.new) result }
    ensures counted { F.faults files.old ≤ F.faults files.new }
    ensures kept { F.told files.new ≡ F.told files.old }
{
    let configs = digests_of(alloc, files, Kind::Config, project.configs.as_slice())?;
    let secrets = digests_of(alloc, files, Kind::Secret, project.secrets.as_slice())?;
    Ok(joined(configs, secrets)?)
}

/// The digests of the files of items, in order.
fn digests_of<F: Files>(
    alloc: Global,
    files: &mut F,
    kind: Kind,
    items: &[FileItem],
) -> Result<List<FileDigest>, DigestRefusal>
    ensures given { (result ≡ Err DigestRefusal.Memory → ⊥)
        → Digested (F.told files.old) kind items.now result }
    ensures fault { (at : List ℕ) → result ≡ Err (DigestRefusal.ReadFault at)
        → Rose (F.faults files.old) (F.faults files.new) }
    ensures reads { WentAs (F.reads files.old) (F.reads files.new) result }
    ensures counted { F.faults files.old ≤ F.faults files.new }
    ensures kept { F.told files.new ≡ F.told files.old }
{
    let mut digests = List::new(alloc);
    for item in items {
        let digest = digest_of(alloc, files, kind, item)?;
        digests.push(digest)?;
    }
    Ok(digests)
}

/// The digest of the file of an item.
fn digest_of<F: Files>(
    alloc: Global,
    files: &mut F,
    kind: Kind,
    item: &FileItem,
) -> Result<FileDigest, DigestRefusal>
    ensures given { (result ≡ Err DigestRefusal.Memory → ⊥)
        → (answer : FileAnswer) × MayAnswer (F.told files.old) item.now answer
        × (result ≡ digest_read kind item.now answer) }
    ensures fault { (at : List ℕ) → result ≡ Err (DigestRefusal.ReadFault at)
        → Rose (F.faults files.old) (F.faults files.new) }
    ensures reads { WentAs (F.reads files.old) (F.reads files.new) result }
    ensures counted { F.faults files.old ≤ F.faults files.new }
    ensures kept { F.told files.new ≡ F.told files.old }
{
    // Before the read, so that one that fails is always told.
    let path = item.file.copy(alloc)?;
    let answer = files.read(alloc, &item.file, MOST_FILE_BYTES);
    digest_read(alloc, kind, item, path, answer)
}

/// What the answer to the read of an item's file, whose path this is, gives.
fn digest_read(
    alloc: Global,
    kind: Kind,
    item: &FileItem,
    path: Text,
    answer: FileAnswer,
) -> Result<FileDigest, DigestRefusal>
    requires path { path ≡ item.now.file }
    ensures ends { ends_as result ≡ answered_as item.now.file answer }
    ensures given { (result ≡ Err DigestRefusal.Memory → ⊥)
        → result ≡ digest_read kind item.now answer }
    ensures fault { (at : List ℕ) → result ≡ Err (DigestRefusal.ReadFault at)
        → answer ≡ FileAnswer.Failed }
{
    match answer {
        FileAnswer::Bytes(bytes) => Ok(bytes_digest(alloc, kind, item, bytes.as_slice())?),
        FileAnswer::Missing => Err(DigestRefusal::NotFound { path }),
        FileAnswer::Longer => Err(DigestRefusal::FileTooLarge { path }),
        FileAnswer::Failed => Err(DigestRefusal::ReadFault { path }),
        FileAnswer::Memory => Err(DigestRefusal::Memory),
    }
}

/// The digest of an item whose file has these bytes.
fn bytes_digest(
    alloc: Global,
    kind: Kind,
    item: &FileItem,
    bytes: &[u8],
) -> Result<FileDigest, Memory>
    ensures { IfOk result (λ digest. digest ≡ digest_of kind item.now bytes.now) }
{
    let digest = Sha256::digest(bytes);
    let digest = Text::from_string(hex::encode(alloc, digest)?);
    Ok(FileDigest {
        kind,
        key: item.key.copy(alloc)?,
        digest,
    })
}

/// Digests and then others.
pub(crate) fn joined(
    digests: List<FileDigest>,
    more: List<FileDigest>,
) -> Result<List<FileDigest>, Memory>
    ensures { IfOk result (λ all. all ≡ digests ++ more) }
{
    let mut all = digests.into_vec();
    let mut rest = more.into_vec();
    all.append(&mut rest)?;
    Ok(List::from_vec(all))
}
