ghost use Rattle.std.specs.Prelude.{◌≡◌, IfErr, IfOk};
ghost use Rattle.ledger_core.specs.Beginning.{MayBegin, begun};
ghost use Rattle.ledger_start.specs.Starts.{IsBegun};

use crate::outset::Outset;
use crate::started::started_of;
use engine_types::{Declared, Entry, Observed, Plan, RunLimits, Sighting};
use ledger_core::{Ledger, Started};
use std::alloc::Global;
use tree_base::{Memory, ReservedList};

/// How many entries a ledger has room for at first: its observation, and what 16 workers may enter without memory.
const ENTRIES_AT_FIRST: usize = 33;

/// A ledger's rows, and the room of its journal and of its observation.
#[derive(Drop)]
struct Opening {
    journal: ReservedList<Entry>,
    place: Sighting,
    started: Started,
}

/// Begins a run whose observation ended well, with its plan. The room of all rows is taken here; where memory is wanted, the
/// observation is handed back.
pub fn begin(
    alloc: Global,
    declared: Declared,
    observed: Observed,
    plan: Plan,
    limits: RunLimits,
) -> Result<Ledger, Observed>
    requires { MayBegin declared observed plan limits }
    ensures begun { IfOk result (λ ledger. ledger ≡ begun declared observed plan limits) }
    ensures kept { IfErr result (λ kept. kept ≡ observed) }
{
    match opening_of(alloc, &declared, &observed, &plan, limits) {
        Ok(opening) => Ok(opened(declared, observed, plan, limits, opening)),
        Err(Memory) => {
            drop(declared);
            drop(plan);
            Err(observed)
        }
    }
}

/// All that a ledger begins with but what it is of.
fn opening_of(
    alloc: Global,
    declared: &Declared,
    observed: &Observed,
    plan: &Plan,
    limits: RunLimits,
) -> Result<Opening, Memory>
    requires { MayBegin declared.now observed.now plan.now limits }
    ensures { IfOk result (λ opening.
        IsBegun declared.now observed.now plan.now limits opening) }
{
    let outset = Outset {
        declared,
        observed,
        plan,
        limits,
    };
    let mut journal = ReservedList::new(alloc);
    journal.reserve(ENTRIES_AT_FIRST)?;
    let place = Sighting::new(alloc)?;
    let started = started_of(alloc, &outset)?;
    Ok(Opening {
        journal,
        place,
        started,
    })
}

/// The ledger, with its observation as its first entry. No memory.
fn opened(
    declared: Declared,
    observed: Observed,
    plan: Plan,
    limits: RunLimits,
    opening: Opening,
) -> Ledger
    requires may { MayBegin declared observed plan limits }
    requires opening { IsBegun declared observed plan limits opening }
    ensures { result ≡ begun declared observed plan limits }
{
    let Opening {
        mut journal,
        place,
        started,
    } = opening;
    journal.push(Entry::Seen(place.holding(observed))).unwrap();
    Ledger::of(declared, plan, limits, journal, started)
}
