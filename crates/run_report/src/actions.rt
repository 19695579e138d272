ghost use Rattle.std.specs.Prelude.{◌≡◌};
ghost use Rattle.run_model.specs.Plans.{create_of, is_create_of, is_make_of, is_start_of, kind_of, make_of, slot_needs, start_of};

use engine_types::{ActionKind, Declared, Need, Plan};

/// The kind of the action with this number.
pub(crate) fn kind_of(plan: &Plan, action: usize) -> Option<ActionKind>
    ensures { result ≡ kind_of plan.now.actions action }
{
    match plan.actions.get(action) {
        Some(action) => Some(action.kind),
        None => None,
    }
}

/// What the slot needs that an action of this kind starts.
pub(crate) fn needs_of(declared: &Declared, kind: Option<ActionKind>) -> &[Need]
    ensures { result.now ≡ slot_needs declared.now kind }
{
    match kind {
        Some(ActionKind::StartSlot { slot }) => match declared.slots.get(slot as usize) {
            Some(slot) => slot.needs.as_slice(),
            None => &[],
        },
        _ => &[],
    }
}

/// The number of the action that starts a slot.
pub(crate) fn start_of(plan: &Plan, slot: u32) -> Option<usize>
    ensures { result ≡ start_of plan.now.actions slot }
{
    for at in 0..plan.actions.len() {
        if is_start_of(slot, kind_of(plan, at)) {
            return Some(at);
        }
    }
    None
}

fn is_start_of(slot: u32, kind: Option<ActionKind>) -> bool
    ensures { result ≡ is_start_of slot kind }
{
    match kind {
        Some(ActionKind::StartSlot { slot: started }) => started == slot,
        _ => false,
    }
}

/// The number of the action that creates a slot's container.
pub(crate) fn create_of(plan: &Plan, slot: u32) -> Option<usize>
    ensures { result ≡ create_of plan.now.actions slot }
{
    for at in 0..plan.actions.len() {
        if is_create_of(slot, kind_of(plan, at)) {
            return Some(at);
        }
    }
    None
}

fn is_create_of(slot: u32, kind: Option<ActionKind>) -> bool
    ensures { result ≡ is_create_of slot kind }
{
    match kind {
        Some(ActionKind::CreateSlot { slot: created }) => created == slot,
        _ => false,
    }
}

/// The number of the action that makes a network.
pub(crate) fn make_of(plan: &Plan, network: u32) -> Option<usize>
    ensures { result ≡ make_of plan.now.actions network }
{
    for at in 0..plan.actions.len() {
        if is_make_of(network, kind_of(plan, at)) {
            return Some(at);
        }
    }
    None
}

fn is_make_of(network: u32, kind: Option<ActionKind>) -> bool
    ensures { result ≡ is_make_of network kind }
{
    match kind {
        Some(ActionKind::MakeNetwork { network: made }) => made == network,
        _ => false,
    }
}
