ghost use Rattle.laws_merging.specs.Unspoken.{UnspokenStays, UnspokenStaysInFiles};

/// The law that what a tree without marks doesn't speak of is as it was below. Nothing runs.
pub fn unspoken_stays()
    ensures { UnspokenStays }
{}

/// The law that what a file without marks doesn't speak of is as it was in the files before it. Nothing runs.
pub fn unspoken_stays_in_files()
    ensures { UnspokenStaysInFiles }
{}
