ghost use Rattle.std.specs.Prelude.{◌≡◌, ℕ, ◌++◌, ◌∷◌, [], ◌&&◌, List, filter, find, map, IfOk, OnOk};
ghost use Rattle.std.specs.List.{list_any};
ghost use Rattle.std.specs.Option.{option_copied};
ghost use Rattle.std.specs.Str.{bytes_eq};
ghost use Rattle.std.specs.Map.{keys_of};
ghost use Rattle.run_model.specs.Observation.{builder_of, images_of, is_always, is_missing, policy_of};
ghost use Rattle.tree_base.specs.ByteOrder.{first_of_each};

use crate::keys::put_key;
use engine_types::{Declared, Policy, Slot};
use std::alloc::Global;
use tree_base::{List, Memory, Text, TextMap};

/// The images of the slots, each once, in byte order.
pub(crate) fn images_of(alloc: Global, declared: &Declared) -> Result<List<Text>, Memory>
    ensures { IfOk result (λ images. images ≡ images_of declared.now) }
{
    let mut images = distinct_images(alloc, declared.slots.as_slice())?;
    images.sort()?;
    Ok(List::from_vec(images))
}

fn distinct_images(alloc: Global, slots: &[Slot]) -> Result<Vec<Text>, Memory>
    ensures { IfOk result (λ images.
        images.items ≡ first_of_each (λ image. image) (map (λ slot. slot.image) slots.now)) }
{
    let mut known = TextMap::new(alloc);
    let mut images = Vec::new(alloc);
    for slot in slots {
        keep_new(alloc, &slot.image, &mut known, &mut images)?;
    }
    Ok(images)
}

fn keep_new(
    alloc: Global,
    image: &Text,
    known: &mut TextMap<()>,
    images: &mut Vec<Text>,
) -> Result<(), Memory>
    ensures { (all : List (List ℕ)) → images.old.items ≡ first_of_each (λ t. t) all
        → keys_of known.old ≡ map (λ t. t) images.old.items
        → OnOk result ((images.new.items ≡ first_of_each (λ t. t) (all ++ image.now ∷ []))
        × (keys_of known.new ≡ map (λ t. t) images.new.items)) }
{
    let was_known = put_key(alloc, known, image)?;
    if was_known {
        return Ok(());
    }
    let copy = image.copy(alloc)?;
    images.push(copy)?;
    Ok(())
}

/// An image's policy: Always if a slot with that image says so, else Missing if one says so, else Never.
pub(crate) fn policy_of(declared: &Declared, image: &Text) -> Policy
    ensures { result ≡ policy_of declared.now image.now }
{
    if says_always(declared.slots.as_slice(), image) {
        Policy::Always
    } else if says_missing(declared.slots.as_slice(), image) {
        Policy::Missing
    } else {
        Policy::Never
    }
}

fn says_always(slots: &[Slot], image: &Text) -> bool
    ensures { result ≡ list_any (λ slot. is_always slot.policy)
        (filter (λ slot. bytes_eq image.now slot.image) slots.now) }
{
    has_always(slots, image)
}

fn has_always(slots: &[Slot], image: &Text) -> bool
    ensures { result ≡
        list_any (λ slot. bytes_eq image.now slot.image && is_always slot.policy) slots.now }
{
    slots.iter().any(|slot| is_always_with(slot, image))
}

/// Whether a slot has an image, with the policy Always.
fn is_always_with(slot: &Slot, image: &Text) -> bool
    ensures { result ≡ (bytes_eq image.now slot.now.image && is_always slot.now.policy) }
{
    *image == slot.image && is_always(slot.policy)
}

fn says_missing(slots: &[Slot], image: &Text) -> bool
    ensures { result ≡ list_any (λ slot. is_missing slot.policy)
        (filter (λ slot. bytes_eq image.now slot.image) slots.now) }
{
    has_missing(slots, image)
}

fn has_missing(slots: &[Slot], image: &Text) -> bool
    ensures { result ≡
        list_any (λ slot. bytes_eq image.now slot.image && is_missing slot.policy) slots.now }
{
    slots.iter().any(|slot| is_missing_with(slot, image))
}

/// Whether a slot has an image, with the policy Missing.
fn is_missing_with(slot: &Slot, image: &Text) -> bool
    ensures { result ≡ (bytes_eq image.now slot.now.image && is_missing slot.now.policy) }
{
    *image == slot.image && is_missing(slot.policy)
}

fn is_always(policy: Policy) -> bool
    ensures { result ≡ is_always policy }
{
    match policy {
        Policy::Always => true,
        Policy::Missing | Policy::Never => false,
    }
}

fn is_missing(policy: Policy) -> bool
    ensures { result ≡ is_missing policy }
{
    match policy {
        Policy::Missing => true,
        Policy::Always | Policy::Never => false,
    }
}

/// The first slot with an image that is to be built.
pub(crate) fn builder_of<'d>(declared: &'d Declared, image: &Text) -> Option<&'d Slot>
    ensures { option_copied result ≡ builder_of declared.now image.now }
{
    first_built(declared.slots.as_slice(), image)
}

fn first_built<'d>(slots: &'d [Slot], image: &Text) -> Option<&'d Slot>
    ensures { option_copied result ≡
        find (λ slot. bytes_eq image.now slot.image && slot.has_build) slots.now }
{
    slots.iter().find(|slot| is_built_with(slot, image))
}

/// Whether a slot has an image that is to be built.
fn is_built_with(slot: &Slot, image: &Text) -> bool
    ensures { result ≡ (bytes_eq image.now slot.now.image && slot.now.has_build) }
{
    *image == slot.image && slot.has_build
}
