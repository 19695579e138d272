ghost use Rattle.laws_merging.specs.OneFile.{OneFileIsItsLongForm};

/// The law that one file without marks, in which no two entries are one, merges to its long form. Nothing runs.
pub fn one_file_is_its_long_form()
    ensures { OneFileIsItsLongForm }
{}
