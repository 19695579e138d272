ghost use Rattle.std.specs.Prelude.{◌≡◌, IsOk, IfOk, [], None, true};
ghost use Rattle.memory_engine.specs.Keeping.{IsKept, IsKept-prop};
ghost use Rattle.memory_engine.specs.Naming.{are_taken};

use crate::catalogue::Catalogue;
use crate::faults::FaultPlan;
use crate::names::Names;
use crate::script::Tick;
use engine_types::{Containers, Engine};
use std::alloc::Global;
use tree_base::{List, Memory};

/// A Docker Engine in memory.
#[derive(Drop)]
pub struct MemoryEngine {
    pub engine: Engine,
    /// How its containers change, one tick for each pause of a hand.
    pub script: List<Tick>,
    pub faults: FaultPlan,
    /// The number of exchanges that hands have logged, the greatest `u64` where there are more.
    pub made: u64,
    pub catalogue: Catalogue,
    pub(crate) names: Names,
    pub ghost kept: { IsKept engine } by { IsKept-prop engine },
    ghost taken: { are_taken names engine.containers ≡ true },
}

impl MemoryEngine {
    /// An Engine that holds nothing and can pull every image, without script and faults.
    pub fn fresh(alloc: Global) -> Result<MemoryEngine, Memory>
        ensures made { IsOk result }
        ensures containers { IfOk result (λ m. m.engine.containers ≡ []) }
        ensures networks { IfOk result (λ m. m.engine.networks ≡ []) }
        ensures volumes { IfOk result (λ m. m.engine.volumes ≡ []) }
        ensures images { IfOk result (λ m. m.engine.images ≡ []) }
        ensures next { IfOk result (λ m. m.engine.next ≡ 0) }
        ensures script { IfOk result (λ m. m.script ≡ []) }
        ensures lost { IfOk result (λ m. m.faults.lost ≡ []) }
        ensures unsent { IfOk result (λ m. m.faults.unsent ≡ []) }
        ensures asked_from { IfOk result (λ m. m.faults.asked_from ≡ None) }
        ensures exchanges { IfOk result (λ m. m.made ≡ 0) }
        ensures catalogue { IfOk result (λ m. m.catalogue ≡ Catalogue.All) }
    {
        Ok(MemoryEngine {
            engine: Engine {
                containers: Containers::new(alloc),
                networks: List::new(alloc),
                volumes: List::new(alloc),
                images: List::new(alloc),
                next: 0,
            },
            script: List::new(alloc),
            faults: FaultPlan {
                lost: List::new(alloc),
                unsent: List::new(alloc),
                asked_from: None,
            },
            made: 0,
            catalogue: Catalogue::All,
            names: Names::none(alloc),
        })
    }

    /// An Engine that holds this from its beginning, with which no exchange was made yet. No memory.
    pub fn holding(
        engine: Engine,
        script: List<Tick>,
        faults: FaultPlan,
        catalogue: Catalogue,
    ) -> MemoryEngine
        requires { IsKept engine }
        ensures engine { result.engine ≡ engine }
        ensures script { result.script ≡ script }
        ensures faults { result.faults ≡ faults }
        ensures made { result.made ≡ 0 }
        ensures catalogue { result.catalogue ≡ catalogue }
    {
        MemoryEngine {
            engine,
            script,
            faults,
            made: 0,
            catalogue,
            names: Names::unknown(),
        }
    }
}
