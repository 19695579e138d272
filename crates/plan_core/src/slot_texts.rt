//! The texts under which the containers of slots are found. They are made once, so that no slot is compared with the
//! containers of another one.

ghost use Rattle.std.specs.Prelude.{◌≡◌, [], IfOk, map, slice_get, unwrap_or};
ghost use Rattle.plan_core.specs.Finding.{container_text, number_named, service_named, slot_text};

use engine_types::{Declared, Listed, Pairs, Seen, Slot, label, labels};
use std::alloc::Global;
use tree_base::{List, Memory, Text, item_at};

/// The text of each slot, and for each container that was seen the text of the slot that its labels name.
#[derive(Drop)]
pub(crate) struct SlotTexts {
    pub(crate) slots: List<Text>,
    pub(crate) containers: List<Text>,
}

impl SlotTexts {
    /// The texts of what is declared and of what was seen.
    pub(crate) fn new(alloc: Global, declared: &Declared, seen: &Seen) -> Result<SlotTexts, Memory>
        ensures slots { IfOk result (λ texts. texts.slots ≡ map slot_text declared.now.slots) }
        ensures containers { IfOk result (λ texts.
            texts.containers ≡ map container_text seen.now.containers) }
    {
        let slots = texts_of_slots(alloc, declared.slots.as_slice())?;
        let containers = container_texts(alloc, seen.containers.as_slice())?;
        Ok(SlotTexts { slots, containers })
    }
}

/// The text of each slot.
pub fn texts_of_slots(alloc: Global, slots: &[Slot]) -> Result<List<Text>, Memory>
    ensures { IfOk result (λ texts. texts ≡ map slot_text slots.now) }
{
    let mut texts = List::new(alloc);
    for slot in slots {
        texts.push(slot_text(alloc, slot)?)?;
    }
    Ok(texts)
}

fn container_texts(alloc: Global, rows: &[Listed]) -> Result<List<Text>, Memory>
    ensures { IfOk result (λ texts. texts ≡ map container_text rows.now) }
{
    let mut texts = List::new(alloc);
    for row in rows {
        texts.push(container_text(alloc, row)?)?;
    }
    Ok(texts)
}

/// The text of a slot: its service with its number behind it.
pub(crate) fn slot_text(alloc: Global, slot: &Slot) -> Result<Text, Memory>
    ensures { IfOk result (λ text. text ≡ slot_text slot.now) }
{
    let service = &slot.service;
    let number = slot.number;
    let text = format!(in alloc; "{service}-{number}")?;
    Ok(Text::from_string(text))
}

/// The text of the slot that a container's labels name.
pub fn container_text(alloc: Global, row: &Listed) -> Result<Text, Memory>
    ensures { IfOk result (λ text. text ≡ container_text row.now) }
{
    let service = service_named(&row.labels);
    let number = number_named(&row.labels);
    let text = format!(in alloc; "{service}-{number}")?;
    Ok(Text::from_string(text))
}

/// The service that labels name, and the empty text where they name none. No memory.
pub(crate) fn service_named(pairs: &Pairs) -> &str
    ensures { result.now ≡ service_named pairs.now }
{
    match label(pairs, labels::SERVICE) {
        Some(service) => service.as_str(),
        None => "",
    }
}

/// The number that labels name, and the empty text where they name none. No memory.
fn number_named(pairs: &Pairs) -> &str
    ensures { result.now ≡ number_named pairs.now }
{
    match label(pairs, labels::NUMBER) {
        Some(number) => number.as_str(),
        None => "",
    }
}

/// The text at a place, and the empty one past the last. No memory.
pub(crate) fn text_at(texts: &[Text], at: usize) -> &str
    ensures { result.now ≡ unwrap_or (slice_get texts.now at) [] }
{
    match item_at(texts, at) {
        Some(text) => text.as_str(),
        None => "",
    }
}
