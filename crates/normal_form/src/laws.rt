ghost use Rattle.normal_form.specs.Laws.{GivenNamesWin};

/// The law that a name that a call gives is the project's, whatever its files say. Nothing runs.
pub fn given_names_win()
    ensures { GivenNamesWin }
{}
