ghost use Rattle.ledger_run.specs.Laws.{StepsAreTheJournals};

/// The exchanges among what a worker's hand did by a journal are those that the journal has of this worker, and what it did by
/// a journal stays the beginning of what it did by a longer one. Nothing runs.
pub fn steps_are_the_journals()
    ensures { StepsAreTheJournals }
{}
