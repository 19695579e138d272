ghost use Rattle.response_rules.specs.Laws.{EndedOnlyAtTheEnd};

/// The law that a response has ended early only where the connection ended. Nothing runs.
pub fn ended_only_at_the_end()
    ensures { EndedOnlyAtTheEnd }
{}
