ghost use Rattle.outside_api.specs.Laws.{CausedStaysTold};

/// The law that what a hand heard stays heard over any exchanges, with one item for each, and that its count of faults doesn't
/// fall. Nothing runs.
pub fn caused_stays_told()
    ensures { CausedStaysTold }
{}
