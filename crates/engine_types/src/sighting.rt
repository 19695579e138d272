ghost use Rattle.std.specs.Prelude.{◌≡◌, [], IfOk};
ghost use Rattle.engine_types.specs.declared.seen.SeenEnd.{SeenEnd as End};
ghost use Rattle.engine_types.specs.declared.seen.SeenFault.{SeenFault as Fault};

use crate::seen::{Observed, SeenEnd, SeenFault};
use std::alloc::Global;
use std::marker::Model;
use tree_base::{List, Memory};

/// An observation on the heap, so that an entry of a journal is small. Contracts see it as that observation.
#[derive(Drop)]
pub struct Sighting {
    place: Box<Observed>,
}

impl Model for Sighting {
    ghost use Rattle.engine_types.specs.declared.seen.Observed.{Observed};

    ghost Value = { Observed };

    ghost view = { λ s. s.place.value };
}

impl Sighting {
    /// The place of an observation, where one stands that asked for nothing for want of memory.
    pub fn new(alloc: Global) -> Result<Sighting, Memory>
        ensures { IfOk result (λ sighting. sighting ≡ record {
          exchanges = [];
          end = End.Bad Fault.Memory;
        }) }
    {
        let nothing = Observed {
            exchanges: List::new(alloc),
            end: SeenEnd::Bad(SeenFault::Memory),
        };
        Ok(Sighting {
            place: Box::new(alloc, nothing)?,
        })
    }

    /// This place with that observation in it. No memory.
    pub fn holding(self, observed: Observed) -> Sighting
        ensures { result ≡ observed }
    {
        let Sighting { mut place } = self;
        *place = observed;
        Sighting { place }
    }

    /// The observation. No memory.
    pub fn get(&self) -> &Observed
        ensures { result.now ≡ self.now }
    {
        &self.place
    }

    /// Takes the observation out. No memory.
    pub fn into_observed(self) -> Observed
        ensures { result ≡ self }
    {
        let Sighting { place } = self;
        Box::into_inner(place)
    }
}
