ghost use Rattle.response_rules.specs.Examples.{NoContentIsDone, CutBodyIsEnded, NothingIsEnded, TwoFramingsAreMalformed, OtherBodyIsBad, ChunkedErrorIsTold, OtherChunkEndIsMalformed, ValuesAreCounted};

/// The law that a start answered by a 204 is done. Nothing runs.
pub fn no_content_is_done()
    ensures { NoContentIsDone }
{}

/// The law that a body that is cut short has ended early. Nothing runs.
pub fn cut_body_is_ended()
    ensures { CutBodyIsEnded }
{}

/// The law that no byte at all has ended early. Nothing runs.
pub fn nothing_is_ended()
    ensures { NothingIsEnded }
{}

/// The law that a head with both a length and a coding is malformed. Nothing runs.
pub fn two_framings_are_malformed()
    ensures { TwoFramingsAreMalformed }
{}

/// The law that a body without the member that is read is no reply. Nothing runs.
pub fn other_body_is_bad()
    ensures { OtherBodyIsBad }
{}

/// The law that an error in a stream of chunks is the message of the pull that failed. Nothing
/// runs.
pub fn chunked_error_is_told()
    ensures { ChunkedErrorIsTold }
{}

/// The law that a chunk that CRLF doesn't follow is malformed. Nothing runs.
pub fn other_chunk_end_is_malformed()
    ensures { OtherChunkEndIsMalformed }
{}

/// The law that a text's commas, quotation marks and brackets aren't places for values. Nothing runs.
pub fn values_are_counted()
    ensures { ValuesAreCounted }
{}
