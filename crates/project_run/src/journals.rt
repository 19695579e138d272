ghost use Rattle.std.specs.Prelude.{◌≡◌, ◌∷◌, ◌≤◌, [], IfOk};
ghost use Rattle.engine_types.specs.declared.Entry.{Entry as Entered};

use engine_types::{Entry, Observed, Sighting};
use std::alloc::Global;
use std::marker::Model;
use tree_base::{List, Memory, ReservedList};

/// A journal that has no entry yet, with the place of its observation. Contracts see the journal with its room.
#[derive(Drop)]
pub struct FirstJournal {
    journal: ReservedList<Entry>,
    place: Sighting,
}

impl Model for FirstJournal {
    ghost use Rattle.engine_types.specs.declared.Entry.{Entry as Entered};
    ghost use Rattle.tree_base.specs.Reserved.{Reserved};

    ghost Value = { Reserved Entered };

    ghost view = { λ first. first.journal };
}

/// An empty journal with room for an observation.
pub fn first_journal(alloc: Global) -> Result<FirstJournal, Memory>
    ensures empty { IfOk result (λ journal. journal.items ≡ []) }
    ensures room { IfOk result (λ journal. 1 ≤ journal.spare) }
{
    let mut journal = ReservedList::new(alloc);
    journal.reserve(1)?;
    let place = Sighting::new(alloc)?;
    Ok(FirstJournal { journal, place })
}

/// The journal that has this observation alone, of one that is empty and has room for it. No memory.
pub fn only_seen(observed: Observed, first: FirstJournal) -> List<Entry>
    requires empty { first.items ≡ [] }
    requires room { 1 ≤ first.spare }
    ensures { result ≡ Entered.Seen observed ∷ [] }
{
    let FirstJournal { mut journal, place } = first;
    journal.push(Entry::Seen(place.holding(observed))).unwrap();
    journal.into_list()
}
