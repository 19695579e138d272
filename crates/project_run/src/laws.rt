ghost use Rattle.project_run.specs.Laws.{RunsSpareKept};

/// Every run of `up` leaves kept containers alone: it removes none, stops none but those that are to start anew, and
/// creates no other one for their slots. Each slot is of a declared service.
pub fn runs_spare_kept()
    ensures { RunsSpareKept }
{}
