ghost use Rattle.start_rows.specs.Laws.{FirstRowsSay, FirstsOfPlans, RowsAreAsking};

/// Rows of the starts that ask for a condition are those that a report on their slot goes by.
pub fn rows_are_asking()
    ensures { RowsAreAsking }
{}

/// The first rows say what a journal says that has only its observation.
pub fn first_rows_say()
    ensures { FirstRowsSay }
{}

/// In a plan each slot has one start at most, and only what is there has a start, a create or a make.
pub fn firsts_of_plans()
    ensures { FirstsOfPlans }
{}
