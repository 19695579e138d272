ghost use Rattle.laws_yaml.specs.BlockLaws.{MappingsReadBack, SequencesReadBack, TreesAreWithinLimits};

/// The law that every tree which is read is within the limits, whatever aliases and merge keys copy. Nothing runs.
pub fn trees_are_within_limits()
    ensures { TreesAreWithinLimits }
{}

/// The law that lines which are a dash, a space and a word each spell the sequence of the words. Nothing runs.
pub fn sequences_read_back()
    ensures { SequencesReadBack }
{}

/// The law that lines which are a word, a colon, a space and a word each, with different keys, spell the mapping of the
/// pairs. Nothing runs.
pub fn mappings_read_back()
    ensures { MappingsReadBack }
{}
