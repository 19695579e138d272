ghost use Rattle.laws_runs.specs.BeginLaws.{BegunGrantsHaveRequests, BegunRunsEnd, BegunRunsHavePlans, RunsMayBegin};

/// A run may begin with what is prepared for it: a whole declared set without a circle, an observation that ended well, and the
/// actions that are planned from what it saw.
pub fn runs_may_begin()
    ensures { RunsMayBegin }
{}

/// From its beginning on, a run has a plan for its aim and for what its observation saw, whatever its entries are.
pub fn begun_runs_have_plans()
    ensures { BegunRunsHavePlans }
{}

/// Whatever a worker is granted in a run that began so has a request.
pub fn begun_grants_have_requests()
    ensures { BegunGrantsHaveRequests }
{}

/// A run that began so, whose journal is legal, and that every worker has left, is over.
pub fn begun_runs_end()
    ensures { BegunRunsEnd }
{}
