ghost use Rattle.wait_run.specs.Laws.{GoalsAreMetOnce, GoodEndsMeetAll, MoreEventsOnlyAdd};

/// The law that no slot's place is twice among those whose goals were met. Nothing runs.
pub fn goals_are_met_once()
    ensures { GoalsAreMetOnce }
{}

/// The law that a wait has status 0 only where all goals are met, and says so of each slot. Nothing runs.
pub fn good_ends_meet_all()
    ensures { GoodEndsMeetAll }
{}

/// The law that what was asked stays right however the stream goes on. Nothing runs.
pub fn more_events_only_add()
    ensures { MoreEventsOnlyAdd }
{}
