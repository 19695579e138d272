ghost use Rattle.response_laws.specs.Laws.{RepliesAreNotBroken, ResponsesAreOne, WholeIsNotBroken};

/// The law that bytes which begin with a whole response are broken in no way. Nothing runs.
pub fn whole_is_not_broken()
    ensures { WholeIsNotBroken }
{}

/// The law that bytes begin with one whole response at most. Nothing runs.
pub fn responses_are_one()
    ensures { ResponsesAreOne }
{}

/// The law that what gives a reply to a request isn't broken for it, whatever the cause. Nothing runs.
pub fn replies_are_not_broken()
    ensures { RepliesAreNotBroken }
{}
