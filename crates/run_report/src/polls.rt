ghost use Rattle.std.specs.Prelude.{◌≡◌, option_map, reverse};
ghost use Rattle.run_report.specs.Claims.{before_poll, slot_polled};

use crate::held::earlier;
use engine_types::Entry;

/// A poll of a worker: the entries before it, and the slot.
#[derive(Clone, Copy)]
pub(crate) struct Polled<'a> {
    pub(crate) before: &'a [Entry],
    pub(crate) slot: u32,
}

/// The latest poll of a worker.
pub(crate) fn latest_poll(past: &[Entry], worker: u32) -> Option<Polled<'_>>
    ensures { option_map (λ poll. (reverse poll.before.now, poll.slot)) result ≡
        before_poll (reverse past.now) worker }
{
    let mut at = past.len();
    while at > 0 {
        at -= 1;
        if let Some(slot) = slot_polled(&past[at], worker) {
            return Some(Polled {
                before: earlier(past, at),
                slot,
            });
        }
    }
    None
}

/// The slot that a worker polls by this entry.
fn slot_polled(entry: &Entry, of: u32) -> Option<u32>
    ensures { result ≡ slot_polled of entry.now }
{
    match entry {
        Entry::Poll { worker, slot } if *worker == of => Some(*slot),
        _ => None,
    }
}
