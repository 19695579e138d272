//! What journals have.

use engine_types::{Entry, Outcome, Reply, RunFault};
use project_run::Ran;

/// How many of some entries there are in a journal.
#[derive(Clone, Copy)]
pub(crate) struct Counts {
    /// Actions that were begun.
    pub(crate) claims: u32,
    /// Exchanges that ended, whatever came of them.
    pub(crate) ends: u32,
    /// Workers that were asked to stop.
    pub(crate) stops: u32,
    /// Actions and polls that were begun behind the first of these.
    pub(crate) late: u32,
}

/// What came of a run.
#[derive(Clone, Copy)]
pub(crate) struct Tally {
    /// How it ended, in a word.
    pub(crate) end: &'static str,
    /// Whether each of two workers claimed an action.
    pub(crate) both: bool,
    pub(crate) counts: Counts,
}

pub(crate) fn tally_of(ran: &Ran) -> Tally {
    let journal = ran.journal.as_slice();
    Tally {
        end: end_of(&ran.fault),
        both: has_claimed(journal, 0) && has_claimed(journal, 1),
        counts: counts_of(journal),
    }
}

fn end_of(fault: &Option<RunFault>) -> &'static str {
    match fault {
        None => "well",
        Some(RunFault::Stopped) => "stopped",
        Some(RunFault::Request { outcome, .. }) if is_conflict(outcome) => "a name is used",
        Some(_) => "otherwise",
    }
}

/// Whether an exchange was refused because a name is used.
fn is_conflict(outcome: &Outcome) -> bool {
    match outcome {
        Outcome::Answered(Reply::Refused { status, .. }) => *status == 409,
        _ => false,
    }
}

fn counts_of(journal: &[Entry]) -> Counts {
    let mut counts = Counts {
        claims: 0,
        ends: 0,
        stops: 0,
        late: 0,
    };
    for entry in journal {
        counts = counted(counts, entry);
    }
    counts
}

fn counted(counts: Counts, entry: &Entry) -> Counts {
    match entry {
        Entry::Claim { .. } => Counts {
            claims: counts.claims.saturating_add(1),
            late: begun(counts),
            ..counts
        },
        Entry::Poll { .. } => Counts {
            late: begun(counts),
            ..counts
        },
        Entry::Ended { .. } => Counts {
            ends: counts.ends.saturating_add(1),
            ..counts
        },
        Entry::Stop { .. } => Counts {
            stops: counts.stops.saturating_add(1),
            ..counts
        },
        _ => counts,
    }
}

fn begun(counts: Counts) -> u32 {
    if counts.stops == 0 {
        counts.late
    } else {
        counts.late.saturating_add(1)
    }
}

fn has_claimed(journal: &[Entry], number: u32) -> bool {
    for entry in journal {
        if let Entry::Claim { worker, .. } = entry {
            if *worker == number {
                return true;
            }
        }
    }
    false
}
