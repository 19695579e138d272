ghost use Rattle.std.specs.Prelude.{◌≡◌, IfOk, map, slice_get};
ghost use Rattle.std.specs.Option.{option_and_then, option_copied};
ghost use Rattle.plan_core.specs.Finding.{container_text, slot_seen, slot_text, slot_text_at};
ghost use Rattle.run_model.specs.Plans.{AreKeptPlaces, basis_of, kept};

use crate::finding::{dependents_of, services_under};
use crate::keeping::{Found, kept_under, row_at};
use crate::slot_texts::{SlotTexts, text_at};
use crate::text_index::TextIndex;
use engine_types::{Aim, Declared, Listed, Seen};
use std::alloc::Global;
use std::marker::Model;
use tree_base::{List, Memory, item_at};

/// What a plan is made from, beside what is looked up once: which containers the slots keep, which slots are updated,
/// and the services by their keys.
#[derive(Drop)]
pub(crate) struct Planner<'a> {
    pub(crate) declared: &'a Declared,
    pub(crate) seen: &'a Seen,
    pub(crate) aim: Aim,
    /// Which containers the slots keep, and which slots are updated.
    pub(crate) found: Found,
    /// The numbers of the slots, under the ids of the containers that they keep.
    pub(crate) kept_ids: TextIndex<'a>,
    /// The numbers of the services, under their keys.
    pub(crate) services: TextIndex<'a>,
    /// The numbers of the services, under the keys of those that they depend on.
    pub(crate) dependents: TextIndex<'a>,
    /// The texts under which the containers of slots are found.
    pub(crate) texts: &'a SlotTexts,
}

impl<'a> Model for Planner<'a> {
    ghost use Rattle.std.specs.Prelude.{◌≡◌, map};
    ghost use Rattle.plan_core.specs.Finding.{container_text, dependents_of, slot_text};
    ghost use Rattle.plan_core.specs.Keeping.{kept_under, services_under};
    ghost use Rattle.run_model.specs.Plans.{AreKeptPlaces, Basis, is_updated};

    ghost Value = { Basis };

    ghost view = { λ p. record {
      declared = p.declared.now;
      seen = p.seen.now;
      aim = p.aim;
    } };

    ghost invariant = { λ p.
        AreKeptPlaces p.declared.now p.seen.now p.found.kept.items
        × (p.kept_ids ≡ kept_under p.seen.now p.found.kept.items)
        × (p.found.updated.items
        ≡ map (is_updated p.declared.now p.seen.now) p.declared.now.slots)
        × (p.services ≡ services_under p.declared.now)
        × (p.dependents ≡ dependents_of p.declared.now)
        × (p.texts.now.slots ≡ map slot_text p.declared.now.slots)
        × (p.texts.now.containers ≡ map container_text p.seen.now.containers) };
}

impl<'a> Planner<'a> {
    /// A planner for an aim, which looks for the kept containers.
    pub(crate) fn new(
        alloc: Global,
        declared: &'a Declared,
        seen: &'a Seen,
        texts: &'a SlotTexts,
        aim: Aim,
    ) -> Result<Planner<'a>, Memory>
        requires slots { texts.now.slots ≡ map slot_text declared.now.slots }
        requires containers { texts.now.containers ≡ map container_text seen.now.containers }
        ensures { IfOk result (λ planner. planner ≡ basis_of declared.now seen.now aim) }
    {
        let found = Found::new(alloc, declared, seen, texts.containers.as_slice())?;
        let kept_ids = kept_under(alloc, seen, found.kept.as_slice())?;
        let services = services_under(alloc, declared)?;
        let dependents = dependents_of(alloc, declared)?;
        Ok(Planner {
            declared,
            seen,
            aim,
            found,
            kept_ids,
            services,
            dependents,
            texts,
        })
    }

    /// The container that the slot with a number keeps. No memory.
    pub(crate) fn kept(&self, slot: usize) -> Option<&'a Listed>
        ensures { option_copied result ≡ kept self.now.declared self.now.seen slot }
    {
        kept_at(self.seen, self.found.kept.as_slice(), slot)
    }

    /// The text of the slot with a number, and the empty text past the last. No memory.
    pub(crate) fn slot_text(&self, slot: u32) -> &'a str
        ensures { result.now ≡ slot_text_at self.now.declared slot }
    {
        text_at(self.texts.slots.as_slice(), slot as usize)
    }

    /// The text of the slot that the labels of the container at a place name, and the empty text past the last. No
    /// memory.
    pub(crate) fn slot_seen(&self, container: u64) -> &'a str
        ensures { result.now ≡ slot_seen self.now.seen container }
    {
        text_at(self.texts.containers.as_slice(), container as usize)
    }

    /// The places of the containers that the slots keep.
    pub(crate) fn kept_places(&self, alloc: Global) -> Result<List<Option<u64>>, Memory>
        ensures { IfOk result (λ kept. AreKeptPlaces self.now.declared self.now.seen kept) }
    {
        copied(alloc, self.found.kept.as_slice())
    }
}

/// The container at the place that stands under a number. No memory.
fn kept_at<'a>(seen: &'a Seen, kept: &[Option<u64>], slot: usize) -> Option<&'a Listed>
    ensures { option_copied result ≡
        option_and_then (option_and_then (slice_get seen.now.containers))
        (slice_get kept.now slot) }
{
    match item_at(kept, slot) {
        Some(place) => row_at(seen, *place),
        None => None,
    }
}

/// A list of these items.
pub(crate) fn copied<T: Copy + Drop>(alloc: Global, items: &[T]) -> Result<List<T>, Memory>
    ensures { IfOk result (λ list. list ≡ items.now) }
{
    let mut list = List::new(alloc);
    list.extend_from_slice(items)?;
    Ok(list)
}
