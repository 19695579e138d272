ghost use Rattle.std.specs.Prelude.{◌≡◌, Some, slice_get};
ghost use Rattle.std.specs.Option.{option_copied};
ghost use Rattle.ledger_core.specs.Seeing.{seen_at, seen_of};

use engine_types::{Entry, Seen, SeenEnd};

/// What the observation saw that a journal begins with, where it ended well. No memory.
pub fn first_seen(journal: &[Entry]) -> Option<&Seen>
    ensures { option_copied result ≡ seen_at (slice_get journal.now 0) }
{
    match journal.get(0) {
        Some(entry) => seen_at(entry),
        None => None,
    }
}

fn seen_at(entry: &Entry) -> Option<&Seen>
    ensures { option_copied result ≡ seen_at (Some entry.now) }
{
    match entry {
        Entry::Seen(observed) => seen_of(&observed.get().end),
        _ => None,
    }
}

fn seen_of(end: &SeenEnd) -> Option<&Seen>
    ensures { option_copied result ≡ seen_of end.now }
{
    match end {
        SeenEnd::Good(seen) => Some(seen),
        SeenEnd::Bad(_) => None,
    }
}
