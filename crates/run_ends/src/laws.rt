ghost use Rattle.run_ends.specs.Laws.{FirstLeaveEndsRun, LastLeavesEndRuns, LeftRunsAreOver, RunsComeToTheirEnd};

/// In a run that nothing stopped and that every worker has left, every action ended or is blocked, and every goal is over.
pub fn runs_come_to_their_end()
    ensures { RunsComeToTheirEnd }
{}

/// In a run that nothing stopped, a worker leaves only once the run is over: none waits for an exchange, every action ended or
/// is blocked, and every goal is over.
pub fn first_leave_ends_run()
    ensures { FirstLeaveEndsRun }
{}

/// Where the last of the workers leaves, since there is nothing left to do, the run is over.
pub fn last_leaves_end_runs()
    ensures { LastLeavesEndRuns }
{}

/// A run that every worker has left is over.
pub fn left_runs_are_over()
    ensures { LeftRunsAreOver }
{}
