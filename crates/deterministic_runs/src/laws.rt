ghost use Rattle.deterministic_runs.specs.Allowed.{IsAllowed};
ghost use Rattle.deterministic_runs.specs.Laws.{OneJournal};
ghost use Rattle.deterministic_runs.specs.MemoryRules.{MemoryIsDetermined, rules_of};
ghost use Rattle.deterministic_runs.specs.OneVolume.{faultless, fresh, loses_third, loses_volume, makes_volume, stops_early, upping};
ghost use Rattle.memory_engine.specs.declared.catalogue.Catalogue.{Catalogue};
ghost use Rattle.run_model.specs.Runs.{IsRun};

/// Of a task of one worker without a deadline, over an Engine that stands at some exchange of its life and whose answers are
/// determined, there is at most one journal of a whole run without want of memory in which each exchange comes to what the
/// Engine says, and the worker stops exactly where it is asked to. Nothing runs.
pub fn one_journal()
    ensures { OneJournal }
{}

/// An Engine in memory is such an Engine, by the images that can be pulled on it and its plan of faults: where no memory is wanted,
/// the fate of an exchange and what the Engine holds say its outcome, and what the Engine then holds. Nothing runs.
pub fn memory_is_determined()
    ensures { MemoryIsDetermined }
{}

/// Runs that bring up a volume on a fresh Engine in memory: one to its end, and one whose third exchange is lost, where the worker is
/// asked to stop, are allowed. One that stops early, without being asked to, is a whole run, and isn't allowed. Nothing runs.
pub fn volume_comes_up()
    ensures whole { IsAllowed (rules_of Catalogue.All faultless) fresh upping makes_volume }
    ensures cut { IsAllowed (rules_of Catalogue.All loses_third) fresh upping loses_volume }
    ensures run { IsRun upping stops_early }
    ensures early { IsAllowed (rules_of Catalogue.All faultless) fresh upping stops_early → ⊥ }
{}
