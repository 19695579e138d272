ghost use Rattle.merge_rules.specs.Alone.{FilesStand};
ghost use Rattle.merge_rules.specs.Laws.{NoMarkIsLeft, NullLeaves, TreesStand};
ghost use Rattle.merge_rules.specs.UnderExtends.{UnmarkedFilesLaid};

/// The law that null, laid over a tree, leaves it. Nothing runs.
pub fn null_leaves()
    ensures { NullLeaves }
{}

/// The law that no mark is left in a merged tree. Nothing runs.
pub fn no_mark_is_left()
    ensures { NoMarkIsLeft }
{}

/// The law that a tree without marks, laid over nothing by no rule, is that tree. Nothing runs.
pub fn trees_stand()
    ensures { TreesStand }
{}

/// The law that a file without marks, in which no two entries are one, laid over nothing, is that file as far as it is within
/// the limits. Nothing runs.
pub fn files_stand()
    ensures { FilesStand }
{}

/// The law that a file without marks is laid over what the files before it gave, whatever its services extend. Nothing runs.
pub fn unmarked_files_laid()
    ensures { UnmarkedFilesLaid }
{}
