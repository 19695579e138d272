ghost use Rattle.world_laws.specs.Laws.{EveryActionEndedWell, ExactInEachWorld, GoneInEachWorld, OneWorkerLeaves, SeenIsThere, ToldRunsHaveWorlds};

/// In a final journal without a failing entry every action of the plan ended well.
pub fn every_action_ended_well()
    ensures { EveryActionEndedWell }
{}

/// In every world of a run's journal, what an observation saw that ended well is what the Engine has at its end.
pub fn seen_is_there()
    ensures { SeenIsThere }
{}

/// After a run of `up` without a fault the Engine holds exactly what the project declares, whatever it held before,
/// in every world of the run's journal.
pub fn exact_in_each_world()
    ensures { ExactInEachWorld }
{}

/// After a run of `down` without a fault all that the project declares is gone, whatever the Engine held before, in
/// every world of the run's journal.
pub fn gone_in_each_world()
    ensures { GoneInEachWorld }
{}

/// A run of one worker whose hand tells how the Engine went through the hand's exchanges and pauses has a world, and it
/// ends with the Engine that the hand tells: so what holds in every world of the run holds of that Engine.
pub fn told_runs_have_worlds()
    ensures { ToldRunsHaveWorlds }
{}

/// Every worker of a run of one worker has left, unless its observation ended badly.
pub fn one_worker_leaves()
    ensures { OneWorkerLeaves }
{}
