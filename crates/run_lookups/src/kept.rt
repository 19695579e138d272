ghost use Rattle.std.specs.Prelude.{◌≡◌, if◌then◌else◌, IfOk};
ghost use Rattle.std.specs.Option.{option_copied};
ghost use Rattle.run_model.specs.Plans.{agrees_seen, kept_of, seen_image};
ghost use Rattle.tree_base.specs.ByteOrder.{is_before};

use crate::agreement::agrees;
use engine_types::{Declared, Listed, Seen, Slot};
use std::alloc::Global;
use tree_base::{Memory, Text};

/// The container that a slot keeps: of those that agree with the slot, the one whose id is least in byte order.
pub fn kept_of<'a>(
    alloc: Global,
    declared: &Declared,
    seen: &'a Seen,
    slot: &Slot,
) -> Result<Option<&'a Listed>, Memory>
    ensures { IfOk result (λ row. option_copied row ≡ kept_of declared.now seen.now slot.now) }
{
    let rows = seen.containers.as_slice();
    let mut best = None;
    for at in (0..rows.len()).rev() {
        let row = &rows[at];
        if agrees_seen(alloc, declared, seen, slot, row)? {
            best = match best {
                Some(other) => Some(lesser(other, row)),
                None => Some(row),
            };
        }
    }
    Ok(best)
}

/// Of two rows the first where its id is less, else the second. No memory.
fn lesser<'a>(other: &'a Listed, row: &'a Listed) -> &'a Listed
    ensures { result.now ≡ (if is_before other.now.id row.now.id then other.now else row.now) }
{
    if other.id < row.id { other } else { row }
}

/// Whether a container that was seen agrees with a slot, whose image is the one that was seen for it.
pub fn agrees_seen(
    alloc: Global,
    declared: &Declared,
    seen: &Seen,
    slot: &Slot,
    row: &Listed,
) -> Result<bool, Memory>
    ensures { IfOk result (λ agreeing.
        agreeing ≡ agrees_seen declared.now seen.now slot.now row.now) }
{
    let Some(image) = seen_image(seen, slot) else {
        return Ok(false);
    };
    agrees(
        alloc,
        &declared.project,
        slot,
        image,
        &row.labels,
        &row.image_id,
        row.state,
    )
}

/// The id that was seen of a slot's image. No memory.
fn seen_image<'a>(seen: &'a Seen, slot: &Slot) -> Option<&'a Text>
    ensures { option_copied result ≡ seen_image seen.now slot.now }
{
    let row = seen
        .images
        .as_slice()
        .iter()
        .find(|row| row.name == slot.image)?;
    Some(&row.id)
}
