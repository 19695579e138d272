ghost use Rattle.laws_bytes.specs.PartLaws.{ChunkLinesStay, HeadsStay, TrailersStay};

/// The law that a head which ended, or passed a limit, does so in the same place with more bytes behind. Nothing runs.
pub fn heads_stay()
    ensures { HeadsStay }
{}

/// The law that a chunk line which ended, or passed its limit, does so in the same place with more bytes behind. Nothing runs.
pub fn chunk_lines_stay()
    ensures { ChunkLinesStay }
{}

/// The law that the lines behind a last chunk which ended, or passed a limit, do so in the same place with more bytes behind.
/// Nothing runs.
pub fn trailers_stay()
    ensures { TrailersStay }
{}
