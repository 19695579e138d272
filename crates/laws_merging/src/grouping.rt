ghost use Rattle.laws_merging.specs.Grouping.{PlainFilesGroup, PlainStays, PlainTreesGroup, WithoutUniquePlain};

/// The law that three trees merge the same however they are grouped, where the upper two are plain. Nothing runs.
pub fn plain_trees_group()
    ensures { PlainTreesGroup }
{}

/// The law that three files merge the same however they are grouped, where the upper two are plain. Nothing runs.
pub fn plain_files_group()
    ensures { PlainFilesGroup }
{}

/// The law that a plain tree over a plain one gives a plain one. Nothing runs.
pub fn plain_stays()
    ensures { PlainStays }
{}

/// The law that trees without marks, with no key twice, are plain by rules under which no sequence has unique entries.
/// Nothing runs.
pub fn without_unique_plain()
    ensures { WithoutUniquePlain }
{}
