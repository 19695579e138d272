ghost use Rattle.include_extends.specs.Laws.{PlainModelsAreTheirFiles, ToldFilesAreLoaded};

/// The law that files that tell what they hold give one answer, unless a read failed. Nothing runs.
pub fn told_files_are_loaded()
    ensures { ToldFilesAreLoaded }
{}

/// The law that a model whose services extend nothing and say nothing of their environments, and that includes nothing,
/// is what its files give, merged. Nothing runs.
pub fn plain_models_are_their_files()
    ensures { PlainModelsAreTheirFiles }
{}
