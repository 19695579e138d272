ghost use Rattle.run_laws.specs.Laws.{ActionsAreClaimedOnce, AsksAreAnswered, ClaimsAreAllowed, EachExchangeIsAsked, KeptAreLeftAlone, PlannedIsPlan, RefusalChangesNothing, RunsHavePlans, SeenIsTold, StatusIsZeroWithoutFault, UnrolledIsPlanned};

/// A refusal changes nothing.
pub fn refusal_changes_nothing()
    ensures { RefusalChangesNothing }
{}

/// A run's exit status is 0 exactly where no entry of its journal fails.
pub fn status_is_zero_without_fault()
    ensures { StatusIsZeroWithoutFault }
{}

/// The plan, as it is listed, has exactly the actions that are wanted, each once, and each needs exactly those that
/// it is said to need.
pub fn planned_is_plan()
    ensures { PlannedIsPlan }
{}

/// The actions of a run are those of its plan, and each needs at least what it needs there.
pub fn runs_have_plans()
    ensures { RunsHavePlans }
{}

/// Where no service is to be replaced a few slots at a time, the actions of a run are those of its plan, with its needs.
pub fn unrolled_is_planned()
    ensures { UnrolledIsPlanned }
{}

/// Each claim of a legal journal stands where its action is allowed: it wasn't claimed before, all that it needs
/// ended well, and each need of the slot that it starts lets it go.
pub fn claims_are_allowed()
    ensures { ClaimsAreAllowed }
{}

/// In a legal journal no action is claimed twice, so no request is sent again.
pub fn actions_are_claimed_once()
    ensures { ActionsAreClaimedOnce }
{}

/// Wherever a worker may ask, a legal journal goes on with an entry that answers it.
pub fn asks_are_answered()
    ensures { AsksAreAnswered }
{}

/// Where the ids of the seen containers differ and each slot is of a declared service, a plan of `up` removes no kept
/// container, stops none but by the stop that a restart asks for, and creates no other one for its slot.
pub fn kept_are_left_alone()
    ensures { KeptAreLeftAlone }
{}

/// Each exchange of an observation is the one that was to come next after those before it.
pub fn each_exchange_is_asked()
    ensures { EachExchangeIsAsked }
{}

/// Where an observation ended well, it saw what its exchanges told: the listed rows, and of each slot's image the id
/// that was told last.
pub fn seen_is_told()
    ensures { SeenIsTold }
{}
