ghost use Rattle.logs_run.specs.Laws.{LinesAreTheReplys, NoOtherLines};

/// The law that the entries of a container have, side by side, the lines of its reply, or some of them where lines are missing. Nothing
/// runs.
pub fn lines_are_the_replys()
    ensures { LinesAreTheReplys }
{}

/// The law that entries have no other lines than those of what was fetched. Nothing runs.
pub fn no_other_lines()
    ensures { NoOtherLines }
{}
