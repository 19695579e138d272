ghost use Rattle.laws_loading.specs.FilesInForms.{FormsGiveOneFile, OneFileGivesOneModel};
ghost use Rattle.laws_loading.specs.Loads.{SettledFilesAreLoaded};

/// The law that a Compose file whose tree means a project, and in which nothing is left to do, is
/// loaded as that project, in every directory without `.env`, and whatever the caller's variables
/// are that name no other project. Nothing runs.
pub fn settled_files_are_loaded()
    ensures { SettledFilesAreLoaded }
{}

/// The law that two texts of a file that differ in one attribute alone, which one has in its short
/// and the other in its long form, give the same tree, or are refused alike. Nothing runs.
pub fn forms_give_one_file()
    ensures { FormsGiveOneFile }
{}

/// The law that a model is the same with either of two texts as its first file that give the same
/// tree or are refused alike, whatever it extends and includes. Nothing runs.
pub fn one_file_gives_one_model()
    ensures { OneFileGivesOneModel }
{}
