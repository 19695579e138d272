ghost use Rattle.std.specs.Prelude.{◌≡◌, IfOk, OnErr, OnOk, position};
ghost use Rattle.std.specs.Str.{bytes_eq};
ghost use Rattle.memory_engine.specs.Ids.{image_id_text};
ghost use Rattle.memory_engine.specs.Serving.{image_told, pulled, with_image};

use crate::catalogue::Catalogue;
use crate::{ids, look_ups, refusals};
use engine_types::{Engine, ImageRow, Reply};
use std::alloc::Global;
use tree_base::{List, Memory, Text, TryCopy};

/// The id of an image.
pub fn tell(alloc: Global, engine: &Engine, name: &Text) -> Result<Reply, Memory>
    ensures { IfOk result (λ reply. image_told engine.now name.now ≡ (reply, engine.now)) }
{
    let Some(row) = look_ups::image(engine, name) else {
        return refusals::not_found(alloc);
    };
    Ok(Reply::ImageId(row.id.copy(alloc)?))
}

/// Pulls an image.
pub fn pull(
    alloc: Global,
    catalogue: &Catalogue,
    engine: &mut Engine,
    name: &Text,
) -> Result<Reply, Memory>
    ensures ok { IfOk result
        (λ reply. pulled catalogue.now engine.old name.now ≡ (reply, engine.new)) }
    ensures err { OnErr result (engine.new ≡ engine.old) }
{
    if !catalogue.has(name) {
        return refusals::not_found(alloc);
    }
    let row = ImageRow {
        name: name.copy(alloc)?,
        id: ids::image_id(alloc, name)?,
    };
    put(&mut engine.images, row)?;
    Ok(Reply::Pulled)
}

/// Puts an image in place of the one with its name, or last where none has it.
fn put(images: &mut List<ImageRow>, row: ImageRow) -> Result<(), Memory>
    ensures ok { OnOk result (images.new ≡ with_image images.old row.name row.id) }
    ensures err { OnErr result (images.new ≡ images.old) }
{
    match place(images.as_slice(), &row.name) {
        Some(at) => {
            images.replace(at, row);
            Ok(())
        }
        None => images.push(row),
    }
}

fn place(images: &[ImageRow], name: &Text) -> Option<usize>
    ensures { result ≡ position (λ row. bytes_eq row.name name.now) images.now }
{
    images.iter().position(|row| row.name == *name)
}
