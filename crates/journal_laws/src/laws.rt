ghost use Rattle.journal_laws.specs.Laws.{CallsAreLegal, DecisionsAreLegal, GoodEndsStay, OnlyDecisionsAreLegal, PermitsAreSingle, PolledSlotsCount, ReportsAreSound};

/// A journal stays legal with the entry of the decision on a worker's ask, and below the greatest number of entries with
/// that of its want of memory.
pub fn decisions_are_legal()
    ensures { DecisionsAreLegal }
{}

/// An entry that answers a worker's ask may stand only where the decision asks for it, or for want of memory.
pub fn only_decisions_are_legal()
    ensures { OnlyDecisionsAreLegal }
{}

/// A journal stays legal with the end of an open permit, with a worker's first stop, and with its first look at a clock past
/// the deadline.
pub fn calls_are_legal()
    ensures { CallsAreLegal }
{}

/// In a legal journal no two workers hold the same action or look at the same slot.
pub fn permits_are_single()
    ensures { PermitsAreSingle }
{}

/// An action that ended well stays so, whatever legal entries follow.
pub fn good_ends_stay()
    ensures { GoodEndsStay }
{}

/// The reports on a slot that a worker looks at count.
pub fn polled_slots_count()
    ensures { PolledSlotsCount }
{}

/// What a report met or failed was reported of a slot whose reports count, and no report fails Started.
pub fn reports_are_sound()
    ensures { ReportsAreSound }
{}
