ghost use Rattle.plan_core.specs.Order.{PlansAreOrderly};

/// Where neither the needs of the slots nor the dependencies of the services go in a circle, the actions of a plan of
/// `up` or `down` can be listed so that each stands after all that it needs, and each start also after the starts of
/// the slots that its slot needs.
pub fn plans_are_orderly()
    ensures { PlansAreOrderly }
{}
