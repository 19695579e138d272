ghost use Rattle.laws_loading.specs.Defaults.{EmptyGivesTail, UnsetGivesTail};

/// The law that `${NAME:-tail}` and `${NAME-tail}` give what the tail gives as a text of its own, where the variable is
/// unset. Nothing runs.
pub fn unset_gives_tail()
    ensures { UnsetGivesTail }
{}

/// The law that `${NAME:-tail}` gives what the tail gives as a text of its own, where the variable is empty. Nothing runs.
pub fn empty_gives_tail()
    ensures { EmptyGivesTail }
{}
