ghost use Rattle.laws_bytes.specs.BrokenLaws.{BrokenGivesNoReply, BrokenInOneWay, BrokenStays, CutsBreakTheSame, FaultsStay};

/// The law that what is broken before the connection's end is broken in the same way, whatever follows. Nothing runs.
pub fn broken_stays()
    ensures { BrokenStays }
{}

/// The law that what is broken otherwise than by an early end is broken in the same way whether the connection ended or not,
/// and whatever follows. Nothing runs.
pub fn faults_stay()
    ensures { FaultsStay }
{}

/// The law that no bytes are broken in two ways. Nothing runs.
pub fn broken_in_one_way()
    ensures { BrokenInOneWay }
{}

/// The law that what is broken before the connection's end is broken in that way alone, whatever follows. Nothing runs.
pub fn cuts_break_the_same()
    ensures { CutsBreakTheSame }
{}

/// The law that what is broken before the connection's end gives no reply, whatever follows. Nothing runs.
pub fn broken_gives_no_reply()
    ensures { BrokenGivesNoReply }
{}
