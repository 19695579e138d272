ghost use Rattle.ledger_start.specs.Laws.{TwoServicesMayBegin};

/// A run of two services may begin, where one waits for the other to be healthy.
pub fn two_services_may_begin()
    ensures { TwoServicesMayBegin }
{}
