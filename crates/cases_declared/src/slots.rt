use crate::calls::is_wanted;
use crate::members::{flag_tree, labels_tree, lines_tree, number_tree, text_tree};
use crate::sent::{create_of, sent};
use crate::words::{attach_lines, condition_word, need_lines, policy_word};
use case_files::{Answers, Fields, Reading};
use cases_ground::{Entries, Items};
use engine_types::{Declared, Slot};
use tree_base::{Map, Memory, Tree};

/// Puts the slots, each as what is wanted at its place: the members that a mapping names, or else its name.
pub(crate) fn put_slots(declared: &Declared, fields: &Fields, answers: &mut Answers) {
    if fields.has("slots") {
        let wanted = answers.reading.items(fields, "slots");
        let slots = slots_tree(&mut answers.reading, declared, wanted);
        answers.put_made("slots", slots);
    }
}

fn slots_tree(reading: &mut Reading, declared: &Declared, wanted: &[Tree]) -> Result<Tree, Memory> {
    let mut slots = Items::new(reading.alloc);
    for (at, slot) in declared.slots.as_slice().iter().enumerate() {
        slots.tree(slot_tree(reading, declared, slot, wanted.get(at)));
    }
    slots.whole()
}

fn slot_tree(
    reading: &mut Reading,
    declared: &Declared,
    slot: &Slot,
    wanted: Option<&Tree>,
) -> Result<Tree, Memory> {
    match wanted {
        Some(Tree::Map(wanted)) => slot_members(reading, declared, slot, wanted.get()),
        _ => text_tree(reading.alloc, slot.name.as_str()),
    }
}

fn slot_members(
    reading: &mut Reading,
    declared: &Declared,
    slot: &Slot,
    wanted: &Map,
) -> Result<Tree, Memory> {
    let mut members = Entries::new(reading.alloc);
    for (name, wanted) in wanted.keys().iter().zip(wanted.values()) {
        let member = slot_member(reading, declared, slot, name.as_str(), wanted);
        members.tree(name.as_str(), member);
    }
    members.whole()
}

/// Puts those members of the first slot that are wanted of the call.
pub(crate) fn put_first(declared: &Declared, fields: &Fields, answers: &mut Answers) {
    let entries = fields.entries();
    for (name, wanted) in entries.keys().iter().zip(entries.values()) {
        if is_of_first(name.as_str()) {
            put_member(declared, name.as_str(), wanted, answers);
        }
    }
}

/// Whether a field of a case is a member of the first slot: an answer that isn't one of the whole set. No memory.
fn is_of_first(name: &str) -> bool {
    match name {
        "project" | "slots" | "services" | "networks" | "volumes" => false,
        "digests" | "refused" | "status" => false,
        _ => is_wanted(name),
    }
}

fn put_member(declared: &Declared, name: &str, wanted: &Tree, answers: &mut Answers) {
    match declared.slots.get(0) {
        Some(slot) => {
            let member = slot_member(&mut answers.reading, declared, slot, name, wanted);
            answers.put_made(name, member);
        }
        None => answers.put_null(name),
    }
}

/// A member of a slot, as it is wanted. It is no case where a slot has none of this name.
fn slot_member(
    reading: &mut Reading,
    declared: &Declared,
    slot: &Slot,
    name: &str,
    wanted: &Tree,
) -> Result<Tree, Memory> {
    let alloc = reading.alloc;
    match name {
        "labels" => labels_tree(alloc, &slot.spec.get().labels, wanted),
        "attach" => lines_tree(alloc, attach_lines(alloc, declared, slot.attach.as_slice())),
        "needs" => lines_tree(alloc, need_lines(alloc, declared, slot.needs.as_slice())),
        "sent" | "body" | "line" => sent(alloc, create_of(alloc, slot), name, wanted),
        _ => plain_member(reading, slot, name),
    }
}

fn plain_member(reading: &mut Reading, slot: &Slot, name: &str) -> Result<Tree, Memory> {
    let alloc = reading.alloc;
    match name {
        "number" => number_tree(alloc, u64::from(slot.number)),
        "has_build" => flag_tree(alloc, slot.has_build),
        "stop_seconds" => number_tree(alloc, slot.stop_seconds),
        _ => match text_member(slot, name) {
            Some(text) => text_tree(alloc, text),
            None => {
                reading.refuse_word("a member of a slot", name);
                Ok(Tree::Null)
            }
        },
    }
}

/// The member of a slot that is a text. No memory.
fn text_member<'s>(slot: &'s Slot, name: &str) -> Option<&'s str> {
    match name {
        "service" => Some(slot.service.as_str()),
        "name" => Some(slot.name.as_str()),
        "image" => Some(slot.image.as_str()),
        "policy" => Some(policy_word(slot.policy)),
        "hash" => Some(slot.hash.as_str()),
        "old_hash" => Some(slot.old_hash.as_str()),
        "goal" => Some(condition_word(slot.goal)),
        _ => None,
    }
}
