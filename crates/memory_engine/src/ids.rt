ghost use Rattle.std.specs.Prelude.{◌≡◌, IfOk};
ghost use Rattle.memory_engine.specs.Ids.{id_text, image_id_text};

use sha2::{Digest, Sha256};
use std::alloc::Global;
use tree_base::{Memory, Text};

/// The id that a number spells.
pub fn numbered_id(alloc: Global, number: u64) -> Result<Text, Memory>
    ensures { IfOk result (λ id. id ≡ id_text number) }
{
    let text = format!(in alloc; "{number:064x}")?;
    Ok(Text::from_string(text))
}

/// The id of the image with a name.
pub fn image_id(alloc: Global, name: &Text) -> Result<Text, Memory>
    ensures { IfOk result (λ id. id ≡ image_id_text name.now) }
{
    let digest = hex::encode(alloc, Sha256::digest(name.as_str()))?;
    let mut id = Text::from_str(alloc, "sha256:")?;
    id.push_str(digest.as_str())?;
    Ok(id)
}
