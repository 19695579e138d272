use std::sync::atomic::{AtomicU32, Ordering};
use std::thread;
use std::time::{Clock, Duration};

/// How often a hand sleeps at most while it waits, a millisecond each time.
const MOST_SLEEPS: u32 = 2_000;

/// How many milliseconds a worker that looked whether to stop is given to say so.
const TURN: u64 = 200;

/// What the hands of a run share: in its first create each waits for all the others. The sleeps are real, and no pauses of a hand.
#[derive(Drop)]
pub struct Meeting {
    /// How many hands are to come.
    hands: u32,
    /// The number of the hand whose worker is asked to stop behind that create, where there is one. The other hands end theirs later.
    stopped: Option<u32>,
    /// How many have come.
    came: AtomicU32,
    /// How many workers were asked to stop.
    asked: AtomicU32,
    /// How often a hand waited in vain.
    late: AtomicU32,
}

impl Meeting {
    /// A meeting of so many hands, to which none has come; the worker of the one with the number `stopped` is asked to stop behind its
    /// first create. No memory.
    pub fn new(hands: u32, stopped: Option<u32>) -> Meeting {
        Meeting {
            hands,
            stopped,
            came: AtomicU32::new(0),
            asked: AtomicU32::new(0),
            late: AtomicU32::new(0),
        }
    }

    /// Comes as the hand with this number and waits for the others, and for the worker that is asked to stop where that is another's.
    pub(crate) fn attend<C: Clock>(&self, clock: &C, number: u32) {
        self.came.fetch_add(1, Ordering::SeqCst);
        self.wait_for(clock, &self.came, self.hands);
        if self.awaits_stop(number) {
            self.wait_for(clock, &self.asked, 1);
            thread::sleep(clock, Duration::from_millis(TURN));
        }
    }

    fn awaits_stop(&self, number: u32) -> bool {
        match self.stopped {
            Some(stopped) => stopped != number,
            None => false,
        }
    }

    fn wait_for<C: Clock>(&self, clock: &C, count: &AtomicU32, wanted: u32) {
        for _ in 0..MOST_SLEEPS {
            if wanted <= count.load(Ordering::SeqCst) {
                return;
            }
            thread::sleep(clock, Duration::from_millis(1));
        }
        self.late.fetch_add(1, Ordering::SeqCst);
    }

    /// Whether the worker of the hand with this number is asked to stop.
    pub(crate) fn stops(&self, number: u32) -> bool {
        match self.stopped {
            Some(stopped) => stopped == number,
            None => false,
        }
    }

    /// Notes that a worker was asked to stop.
    pub(crate) fn note_stop(&self) {
        self.asked.fetch_add(1, Ordering::SeqCst);
    }

    /// Whether all hands came, and none waited in vain.
    pub(crate) fn was_whole(&self) -> bool {
        self.came.load(Ordering::SeqCst) == self.hands && self.late.load(Ordering::SeqCst) == 0
    }
}
