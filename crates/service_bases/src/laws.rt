ghost use Rattle.service_bases.specs.Laws.{ChainsLayInParts, EmptyBasesAddNothing, TwoAreOne};

/// The law that a chain may be laid in parts. Nothing runs.
pub fn chains_lay_in_parts()
    ensures { ChainsLayInParts }
{}

/// The law that a service that extends a chain of two extends what that chain gives. Nothing runs.
pub fn two_are_one()
    ensures { TwoAreOne }
{}

/// The law that a service that extends an empty one is itself. Nothing runs.
pub fn empty_bases_add_nothing()
    ensures { EmptyBasesAddNothing }
{}
