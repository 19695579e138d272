ghost use Rattle.file_paths.specs.Laws.{TakenPathsHaveNoHome, TakenPathsStay};

/// The law that a path which is taken absolute stays where it is taken again: it has no `.`, no `..` and no home left.
/// Nothing runs.
pub fn taken_paths_stay()
    ensures joined { TakenPathsStay }
    ensures homed { TakenPathsHaveNoHome }
{}
