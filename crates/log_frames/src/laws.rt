ghost use Rattle.log_frames.specs.Laws.{EntriesGiveTheLines, LinesJoinToTheirBytes, PartsAreTheFrames, PartsGiveTheLines, ReplyIsReadOneWay, SentFramesAreRead};

/// The law that frames that are sent are read, with their kinds and contents. Nothing runs.
pub fn sent_frames_are_read()
    ensures { SentFramesAreRead }
{}

/// The law that a reply is read in one way only. Nothing runs.
pub fn reply_is_read_one_way()
    ensures { ReplyIsReadOneWay }
{}

/// The law that what a cutter gives for the parts of a reply, and at the end, are the lines of the whole reply. Nothing
/// runs.
pub fn parts_give_the_lines()
    ensures { PartsGiveTheLines }
{}

/// The law that entries of parts give the lines of the whole reply, and some of them where entries lack lines. Nothing
/// runs.
pub fn entries_give_the_lines()
    ensures { EntriesGiveTheLines }
{}

/// The law that lines join to the bytes that they were cut from, and hold no line feed. Nothing runs.
pub fn lines_join_to_their_bytes()
    ensures { LinesJoinToTheirBytes }
{}

/// The law that the parts of a reply's frames are the frames, and at most 8. Nothing runs.
pub fn parts_are_the_frames()
    ensures { PartsAreTheFrames }
{}
