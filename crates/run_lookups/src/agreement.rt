ghost use Rattle.std.specs.Prelude.{◌≡◌, Some, IfOk};
ghost use Rattle.run_model.specs.Labels.{agrees, hash_for};

use crate::labels::{has_label, is_of_slot};
use crate::states::is_lost;
use engine_types::{ContainerState, Pairs, Slot, labels};
use std::alloc::Global;
use tree_base::{Memory, Text};

/// Whether a container with these labels, image id and state agrees with a slot whose image has an id: its labels are
/// of the project and name the slot and the slot's hash of their version, its image is the slot's, and it is neither
/// dead nor being removed.
pub fn agrees(
    alloc: Global,
    project: &Text,
    slot: &Slot,
    image: &Text,
    pairs: &Pairs,
    image_id: &Text,
    state: ContainerState,
) -> Result<bool, Memory>
    ensures { IfOk result (λ answer.
        answer ≡ agrees project.now slot.now (Some image.now) pairs.now image_id.now state) }
{
    if !has_label(pairs, labels::HASH, hash_for(slot, pairs))
        || *image != *image_id
        || is_lost(state)
    {
        return Ok(false);
    }
    is_of_slot(alloc, project, slot, pairs)
}

/// The hash that a container with these labels has to have to agree with a slot. No memory.
fn hash_for<'a>(slot: &'a Slot, pairs: &Pairs) -> &'a str
    ensures { result.now ≡ hash_for slot.now pairs.now }
{
    if has_label(pairs, labels::VERSION, labels::HASH_VERSION) {
        slot.hash.as_str()
    } else {
        slot.old_hash.as_str()
    }
}
