ghost use Rattle.slot_rows.specs.Laws.{FirstIsNextPoll};

/// Rows of slots that say what a journal says have the slot that is polled next as their first.
pub fn first_is_next_poll()
    ensures { FirstIsNextPoll }
{}
