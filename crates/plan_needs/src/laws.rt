ghost use Rattle.plan_needs.specs.Laws.{TurnedAreDependents, WaitsAreDefined};

/// Where the starts of slots are known, an action waits for another one as the definitions of rows say: its loss blocks it,
/// lets it go as often, and its good end lets it go as often.
pub fn waits_are_defined()
    ensures { WaitsAreDefined }
{}

/// What actions wait for, turned round, are the rows of dependents that a ledger's losses and good ends go by.
pub fn turned_are_dependents()
    ensures { TurnedAreDependents }
{}
