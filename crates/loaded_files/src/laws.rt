ghost use Rattle.loaded_files.specs.Laws.{UpperVariablesWin};

/// The law that the caller's variables win over those of env files, and those of a later file over those of earlier
/// ones. Nothing runs.
pub fn upper_variables_win()
    ensures { UpperVariablesWin }
{}
