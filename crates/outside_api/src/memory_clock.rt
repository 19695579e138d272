ghost use Rattle.std.specs.Prelude.{◌≡◌, ◌+◌, ◌<◌, ◌^◌, min};
ghost use Rattle.outside_api.specs.Clock.{new_clock, after_now, after_pause, after_asked, read_at};
ghost use Rattle.outside_api.specs.ClockCounts.{counts_of};

use crate::clock_counts::ClockCounts;

/// The clock of a hand or a wire in memory: it begins at 0 and rises by the pauses.
#[derive(Drop)]
pub struct MemoryClock {
    /// The time in milliseconds.
    pub time: u64,
    pub counts: ClockCounts,
}

impl MemoryClock {
    /// A clock that was never used. No memory.
    pub fn new() -> MemoryClock
        ensures counts { counts_of result.counts ≡ new_clock }
        ensures time { result.time ≡ 0 }
    {
        MemoryClock {
            time: 0,
            counts: ClockCounts::new(),
        }
    }

    /// Reads the time, for a wire. No memory.
    pub fn now(&mut self) -> u64
        requires { self.old.counts.readings < 2 ^ 62 }
        ensures counts { counts_of self.new.counts ≡ after_now (counts_of self.old.counts) result }
        ensures reading { result ≡ self.old.time }
        ensures time { self.new.time ≡ self.old.time }
    {
        self.counts.read(self.time);
        self.time
    }

    /// Reads the time, for a hand that has made so many exchanges. No memory.
    pub fn now_at(&mut self, made: u64) -> u64
        requires { self.old.counts.readings < 2 ^ 62 }
        ensures counts { counts_of self.new.counts
            ≡ read_at made (counts_of self.old.counts) result }
        ensures reading { result ≡ self.old.time }
        ensures time { self.new.time ≡ self.old.time }
    {
        self.counts.read_at(made, self.time);
        self.time
    }

    /// Lets so many milliseconds go by; the time stands still at the greatest `u64`. No memory.
    pub fn pause(&mut self, ms: u32)
        requires { self.old.counts.paused < 2 ^ 62 }
        ensures counts { counts_of self.new.counts ≡ after_pause (counts_of self.old.counts) ms }
        ensures time { self.new.time ≡ min (self.old.time + ms) 18446744073709551615 }
    {
        self.counts.pause(ms);
        self.time = self.time.saturating_add(u64::from(ms));
    }

    /// Counts a look whether to stop, and its answer. No memory.
    pub fn look(&mut self, answer: bool)
        requires { self.old.counts.looks < 2 ^ 62 }
        ensures counts { counts_of self.new.counts
            ≡ after_asked (counts_of self.old.counts) answer }
        ensures time { self.new.time ≡ self.old.time }
    {
        self.counts.look(answer);
    }
}
