ghost use Rattle.std.specs.Prelude.{◌≡◌, ◌<◌, ◌≤◌, ◌^◌};
ghost use Rattle.outside_api.specs.Clock.{new_clock, after_now, after_pause, after_asked, placed, read_at};

/// How often a clock was read, with its first and last reading, the milliseconds that were paused, and how often it was
/// asked whether to stop, and that was answered yes; and where a hand read it, how many exchanges it had made by the first reading.
#[derive(Drop)]
pub struct ClockCounts {
    pub readings: u64,
    pub first: u64,
    pub last: u64,
    pub paused: u64,
    pub looks: u64,
    pub yeses: u64,
    pub place: Option<u64>,
    pub ghost counted: { yeses ≤ looks },
}

impl ClockCounts {
    ghost use Rattle.outside_api.specs.ClockCounts.{counts_of};

    /// The counts of a clock that was never used. No memory.
    pub fn new() -> ClockCounts
        ensures { counts_of result ≡ new_clock }
    {
        ClockCounts {
            readings: 0,
            first: 0,
            last: 0,
            paused: 0,
            looks: 0,
            yeses: 0,
            place: None,
        }
    }

    /// Counts a reading, whose place isn't told. No memory.
    pub fn read(&mut self, time: u64)
        requires { self.old.readings < 2 ^ 62 }
        ensures { counts_of self.new ≡ after_now (counts_of self.old) time }
    {
        if self.readings == 0 {
            self.first = time;
        }
        self.readings += 1;
        self.last = time;
    }

    /// Counts a reading of a hand that has made so many exchanges. No memory.
    pub fn read_at(&mut self, made: u64, time: u64)
        requires { self.old.readings < 2 ^ 62 }
        ensures { counts_of self.new ≡ read_at made (counts_of self.old) time }
    {
        self.place = placed(made, self.place);
        self.read(time);
    }

    /// Counts a pause of so many milliseconds. No memory.
    pub fn pause(&mut self, ms: u32)
        requires { self.old.paused < 2 ^ 62 }
        ensures { counts_of self.new ≡ after_pause (counts_of self.old) ms }
    {
        self.paused += u64::from(ms);
    }

    /// Counts a look whether to stop, and its answer. No memory.
    pub fn look(&mut self, answer: bool)
        requires { self.old.looks < 2 ^ 62 }
        ensures { counts_of self.new ≡ after_asked (counts_of self.old) answer }
    {
        self.looks += 1;
        if answer {
            self.yeses += 1;
        }
    }
}

/// Where the first reading stands once there is one behind so many exchanges. No memory.
pub fn placed(made: u64, place: Option<u64>) -> Option<u64>
    ensures { result ≡ placed made place }
{
    match place {
        Some(first) => Some(first),
        None => Some(made),
    }
}
