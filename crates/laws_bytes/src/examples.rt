ghost use Rattle.laws_bytes.specs.BrokenExamples.{OtherChunkLineIsMalformed, OtherVersionIsMalformed, SpacedTrailerIsMalformed};

/// The law that a head of another version of HTTP is malformed. Nothing runs.
pub fn other_version_is_malformed()
    ensures { OtherVersionIsMalformed }
{}

/// The law that a line which says no size is malformed where a chunk line is due. Nothing runs.
pub fn other_chunk_line_is_malformed()
    ensures { OtherChunkLineIsMalformed }
{}

/// The law that a line with a space before its colon is malformed behind the last chunk. Nothing runs.
pub fn spaced_trailer_is_malformed()
    ensures { SpacedTrailerIsMalformed }
{}
