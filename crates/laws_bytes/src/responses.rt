ghost use Rattle.laws_bytes.specs.CutLaws.{CutsReadTheSame, ResponsesStay, WholeStaysUnbroken};

/// The law that bytes which begin with a whole response before the connection's end begin with it whatever follows. Nothing
/// runs.
pub fn responses_stay()
    ensures { ResponsesStay }
{}

/// The law that a response which is whole in the first bytes is the only one that all of them begin with. Nothing runs.
pub fn cuts_read_the_same()
    ensures { CutsReadTheSame }
{}

/// The law that bytes which begin with a whole response before the connection's end are broken in no way, whatever follows.
/// Nothing runs.
pub fn whole_stays_unbroken()
    ensures { WholeStaysUnbroken }
{}
