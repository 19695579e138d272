ghost use Rattle.std.specs.Prelude.{◌≡◌, ◌++◌, IfOk, map};
ghost use Rattle.file_digests.specs.Digests.{empty_digest, empty_digests};

use crate::reading::joined;
use engine_types::Kind;
use service_hashes::FileDigest;
use std::alloc::Global;
use tree_base::{List, Memory, Text};
use typed_project::{FileItem, Project};

/// The digests where no file is read: each is the empty text. Memory where there is no memory for it.
pub fn empty_digests(alloc: Global, project: &Project) -> Result<List<FileDigest>, Memory>
    ensures { IfOk result (λ digests. digests ≡ empty_digests project.now) }
{
    let configs = empty_of(alloc, Kind::Config, project.configs.as_slice())?;
    let secrets = empty_of(alloc, Kind::Secret, project.secrets.as_slice())?;
    joined(configs, secrets)
}

fn empty_of(alloc: Global, kind: Kind, items: &[FileItem]) -> Result<List<FileDigest>, Memory>
    ensures { IfOk result (λ digests. digests ≡ map (empty_digest kind) items.now) }
{
    let mut digests = List::new(alloc);
    for item in items {
        digests.push(empty_digest(alloc, kind, item)?)?;
    }
    Ok(digests)
}

fn empty_digest(alloc: Global, kind: Kind, item: &FileItem) -> Result<FileDigest, Memory>
    ensures { IfOk result (λ digest. digest ≡ empty_digest kind item.now) }
{
    Ok(FileDigest {
        kind,
        key: item.key.copy(alloc)?,
        digest: Text::new(alloc),
    })
}
