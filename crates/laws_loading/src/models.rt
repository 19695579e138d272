ghost use Rattle.laws_loading.specs.Settled.{SettledModelsAreTheirFiles};

/// The law that a settled model is what its files gave, merged, whatever the variables are. Nothing
/// runs.
pub fn settled_models_are_their_files()
    ensures { SettledModelsAreTheirFiles }
{}
