ghost use Rattle.std.specs.Prelude.{◌≡◌, ◌≤◌, find, length, reverse, take};
ghost use Rattle.std.specs.Option.{option_copied};
ghost use Rattle.run_model.specs.Journals.{holding};
ghost use Rattle.run_report.specs.Permits.{holding_of, is_turn_of, permit_of};

use engine_types::Entry;

/// What a worker holds: nothing, a permit for an action, or one to poll a slot.
#[derive(Clone, Copy)]
pub(crate) enum Held {
    Nothing,
    Work(u32),
    Watch(u32),
}

/// The entries of a journal before a place.
pub(crate) fn earlier(journal: &[Entry], at: usize) -> &[Entry]
    requires { at ≤ length journal.now }
    ensures { result.now ≡ take at journal.now }
{
    &journal[..at]
}

/// What a worker holds after these entries.
pub(crate) fn held_after(past: &[Entry], worker: u32) -> Held
    ensures { holding_of result ≡ holding (reverse past.now) worker }
{
    permitted(latest_turn(past, worker))
}

/// The worker's latest claim, poll or end. In a legal journal no entry is passed over for more than one end of a worker.
fn latest_turn(past: &[Entry], worker: u32) -> Option<&Entry>
    ensures { option_copied result ≡ find (is_turn_of worker) (reverse past.now) }
{
    past.iter().rev().find(|entry| is_turn_of(entry, worker))
}

fn is_turn_of(entry: &Entry, of: u32) -> bool
    ensures { result ≡ is_turn_of of entry.now }
{
    match entry {
        Entry::Claim { worker, .. } => *worker == of,
        Entry::Poll { worker, .. } => *worker == of,
        Entry::Ended { worker, .. } => *worker == of,
        _ => false,
    }
}

fn permitted(turn: Option<&Entry>) -> Held
    ensures { holding_of result ≡ permit_of (option_copied turn.entry) }
{
    match turn {
        Some(Entry::Claim { action, .. }) => Held::Work(*action),
        Some(Entry::Poll { slot, .. }) => Held::Watch(*slot),
        _ => Held::Nothing,
    }
}
