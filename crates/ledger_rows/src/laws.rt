ghost use Rattle.ledger_rows.specs.Laws.{BlockedIsTheOneAnswer, QuietEntriesKeepRows, ReadyIsNext};

/// Rows of actions that say how each stands, which are blocked, and how many needs keep each, have the next action that may
/// be claimed as their first ready one.
pub fn ready_is_next()
    ensures { ReadyIsNext }
{}

/// What is blocked in an orderly plan is the one answer to the equation that says what blocks an action.
pub fn blocked_is_the_one_answer()
    ensures { BlockedIsTheOneAnswer }
{}

/// Entries other than claims and ends change nothing of what the rows of the actions say.
pub fn quiet_entries_keep_rows()
    ensures { QuietEntriesKeepRows }
{}
