//! The texts under which slots, services and containers are found.

ghost use Rattle.std.specs.Prelude.{◌≡◌, [], IfOk, map, slice_get, unwrap_or};
ghost use Rattle.plan_core.specs.Finding.{container_text, slot_text};
ghost use Rattle.rolling_update.specs.Needs.{Scene, step_text};

use engine_types::{Action, ActionKind, Declared, Listed, Seen, Slot};
use plan_core::{container_text, texts_of_slots};
use std::alloc::Global;
use tree_base::{List, Memory, Text, item_at};

/// The texts of what is declared, of what was seen, and of a plan: of each slot its text and its name, of each container the text
/// of the slot that its labels name, of each service its key, and of each action the text of the slot that it stops or starts.
#[derive(Drop)]
pub(crate) struct Texts {
    pub(crate) slots: List<Text>,
    pub(crate) names: List<Text>,
    pub(crate) rows: List<Text>,
    pub(crate) keys: List<Text>,
    pub(crate) steps: List<Text>,
}

impl Texts {
    pub(crate) fn new(
        alloc: Global,
        declared: &Declared,
        seen: &Seen,
        actions: &[Action],
    ) -> Result<Texts, Memory>
        ensures slots { IfOk result (λ texts. texts.slots ≡ map slot_text declared.now.slots) }
        ensures names { IfOk result (λ texts.
            texts.names ≡ map (λ slot. slot.name) declared.now.slots) }
        ensures rows { IfOk result (λ texts.
            texts.rows ≡ map container_text seen.now.containers) }
        ensures keys { IfOk result (λ texts.
            texts.keys ≡ map (λ service. service.key) declared.now.services) }
        ensures steps { IfOk result (λ texts. texts.steps ≡ map
            (step_text (record { declared = declared.now; seen = seen.now })) actions.now) }
    {
        let slots = texts_of_slots(alloc, declared.slots.as_slice())?;
        let names = names_of(alloc, declared.slots.as_slice())?;
        let rows = row_texts(alloc, seen.containers.as_slice())?;
        let keys = keys_of(alloc, declared)?;
        let steps = step_texts(alloc, slots.as_slice(), rows.as_slice(), actions)?;
        Ok(Texts {
            slots,
            names,
            rows,
            keys,
            steps,
        })
    }
}

fn names_of(alloc: Global, slots: &[Slot]) -> Result<List<Text>, Memory>
    ensures { IfOk result (λ texts. texts ≡ map (λ slot. slot.name) slots.now) }
{
    let mut texts = List::new(alloc);
    for slot in slots {
        texts.push(slot.name.copy(alloc)?)?;
    }
    Ok(texts)
}

fn row_texts(alloc: Global, rows: &[Listed]) -> Result<List<Text>, Memory>
    ensures { IfOk result (λ texts. texts ≡ map container_text rows.now) }
{
    let mut texts = List::new(alloc);
    for row in rows {
        texts.push(container_text(alloc, row)?)?;
    }
    Ok(texts)
}

fn keys_of(alloc: Global, declared: &Declared) -> Result<List<Text>, Memory>
    ensures { IfOk result (λ texts.
        texts ≡ map (λ service. service.key) declared.now.services) }
{
    let mut texts = List::new(alloc);
    for service in declared.services.as_slice() {
        texts.push(service.key.copy(alloc)?)?;
    }
    Ok(texts)
}

/// For each action the text of the slot whose container it stops or that it starts, and the empty text for other actions; by the
/// texts of the slots, and of those that the labels of the containers name.
fn step_texts(
    alloc: Global,
    slots: &[Text],
    rows: &[Text],
    actions: &[Action],
) -> Result<List<Text>, Memory>
    ensures { (scene : Scene) → slots.now ≡ map slot_text scene.declared.slots
        → rows.now ≡ map container_text scene.seen.containers
        → IfOk result (λ texts. texts ≡ map (step_text scene) actions.now) }
{
    let mut texts = List::new(alloc);
    for action in actions {
        texts.push(step_text(alloc, slots, rows, action)?)?;
    }
    Ok(texts)
}

fn step_text(alloc: Global, slots: &[Text], rows: &[Text], action: &Action) -> Result<Text, Memory>
    ensures { (scene : Scene) → slots.now ≡ map slot_text scene.declared.slots
        → rows.now ≡ map container_text scene.seen.containers
        → IfOk result (λ text. text ≡ step_text scene action.now) }
{
    match action.kind {
        ActionKind::StopContainer { container } => {
            Text::from_str(alloc, text_at(rows, container as usize))
        }
        ActionKind::StartSlot { slot } => Text::from_str(alloc, text_at(slots, slot as usize)),
        ActionKind::MakeVolume { .. }
        | ActionKind::MakeNetwork { .. }
        | ActionKind::RemoveContainer { .. }
        | ActionKind::CreateSlot { .. }
        | ActionKind::ConnectSlot { .. }
        | ActionKind::StopKept { .. }
        | ActionKind::RemoveNetwork { .. }
        | ActionKind::RemoveVolume { .. } => Ok(Text::new(alloc)),
    }
}

/// The text at a place, and the empty one past the last. No memory.
pub(crate) fn text_at(texts: &[Text], at: usize) -> &str
    ensures { result.now ≡ unwrap_or (slice_get texts.now at) [] }
{
    match item_at(texts, at) {
        Some(text) => text.as_str(),
        None => "",
    }
}
