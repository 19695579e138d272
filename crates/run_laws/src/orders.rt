ghost use Rattle.run_laws.specs.Orders.{RunsAreOrderly};

/// Where the dependencies of the services go in no circle, and slots need only slots of services on which their own service
/// depends, the actions of a run of `up` or `down` can be listed so that each stands after all that it needs, and each start
/// also after the starts of the slots that its slot needs.
pub fn runs_are_orderly()
    ensures { RunsAreOrderly }
{}
