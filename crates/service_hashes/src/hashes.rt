ghost use Rattle.std.specs.Prelude.{◌≡◌, IfOk};
ghost use Rattle.typed_project.specs.DistinctNames.{HaveDistinctNames};
ghost use Rattle.service_hashes.specs.Hashes.{hash, hashed_text, old_hash};

use crate::digest::{FileDigest, text_hash};
use crate::used::used_text;
use engine_types::Kind;
use project_pages::service_json;
use std::alloc::Global;
use tree_base::{Memory, Text};
use typed_project::Service;

/// The hash of the first version: of the service's attributes alone. Memory where there is no memory for it.
pub fn old_hash(alloc: Global, service: &Service) -> Result<Text, Memory>
    requires names { HaveDistinctNames service.now.attributes }
    ensures { IfOk result (λ text. text ≡ old_hash service.now) }
{
    let text = service_json(alloc, service)?;
    text_hash(alloc, text.as_str())
}

/// The hash of the second version: of the service's attributes and of the digests of the secrets and configs that it uses. Memory
/// where there is no memory for it.
pub fn hash(alloc: Global, service: &Service, digests: &[FileDigest]) -> Result<Text, Memory>
    requires names { HaveDistinctNames service.now.attributes }
    ensures { IfOk result (λ text. text ≡ hash service.now digests.now) }
{
    let text = hashed_text(alloc, service, digests)?;
    text_hash(alloc, text.as_str())
}

/// The text under the hash.
fn hashed_text(alloc: Global, service: &Service, digests: &[FileDigest]) -> Result<Text, Memory>
    requires names { HaveDistinctNames service.now.attributes }
    ensures { IfOk result (λ text. text ≡ hashed_text service.now digests.now) }
{
    let configs = used_text(alloc, digests, Kind::Config, service.configs())?;
    let secrets = used_text(alloc, digests, Kind::Secret, service.secrets())?;
    let own = service_json(alloc, service)?;
    let text = format!(in alloc;
        "{{\"configs\":{configs},\"secrets\":{secrets},\"service\":{own}}}"
    )?;
    Ok(Text::from_string(text))
}
