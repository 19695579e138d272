ghost use Rattle.laws_runs.specs.GrantLaws.{GrantsHaveRequests};

/// In a legal journal of a planned run whose observation ended well, the action that an ask is answered with has a request,
/// and the slot that an ask is answered with has a container to be polled.
pub fn grants_have_requests()
    ensures { GrantsHaveRequests }
{}
