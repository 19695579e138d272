ghost use Rattle.std.specs.Prelude.{◌≡◌, ◌≤◌, ◌<◌, ◌↔◌, IsTrue, if◌then◌else◌};
ghost use Rattle.outside_files.specs.Counts.{Rose, one_more};
ghost use Rattle.outside_files.specs.Failures.{next_fails};

use tree_base::List;

/// Which calls of an object in memory are to fail, how many were made, and how many failed. Both counts stand still
/// at the greatest `u64`.
#[derive(Drop)]
pub struct Failing {
    /// The numbers of the calls that are to fail, from 1.
    pub fails: List<u64>,
    pub calls: u64,
    pub failed: u64,
}

impl Failing {
    /// No call was made yet. No memory.
    pub fn new(fails: List<u64>) -> Failing
        ensures fails { result.fails ≡ fails }
        ensures calls { result.calls ≡ 0 }
        ensures failed { result.failed ≡ 0 }
    {
        Failing {
            fails,
            calls: 0,
            failed: 0,
        }
    }

    /// Counts a call, and whether it is to fail: exactly where its number is among those that are. No memory.
    pub fn next_fails(&mut self) -> bool
        ensures fails { self.new.fails ≡ self.old.fails }
        ensures calls { self.new.calls ≡ one_more self.old.calls }
        ensures told { result ≡ next_fails self.old.fails self.old.calls }
        ensures failed { self.new.failed ≡
            (if result then one_more self.old.failed else self.old.failed) }
        ensures never_falls { self.old.failed ≤ self.new.failed }
    {
        self.calls = self.calls.saturating_add(1);
        let fails = self.fails.as_slice().contains(&self.calls);
        if fails {
            self.failed = self.failed.saturating_add(1);
        }
        fails
    }

    /// Whether a call failed. No memory.
    pub fn has_failed(&self) -> bool
        ensures { IsTrue result ↔ (0 < self.now.failed) }
    {
        self.failed > 0
    }

    /// Forgets the calls that were made. No memory.
    pub fn begin_anew(&mut self)
        ensures fails { self.new.fails ≡ self.old.fails }
        ensures calls { self.new.calls ≡ 0 }
        ensures failed { self.new.failed ≡ 0 }
    {
        self.calls = 0;
        self.failed = 0;
    }

    /// Counts a fault beside those that were asked for. No memory.
    pub fn count_fault(&mut self)
        ensures fails { self.new.fails ≡ self.old.fails }
        ensures calls { self.new.calls ≡ self.old.calls }
        ensures failed { self.new.failed ≡ one_more self.old.failed }
        ensures counted { Rose self.old.failed self.new.failed }
        ensures never_falls { self.old.failed ≤ self.new.failed }
    {
        self.failed = self.failed.saturating_add(1);
    }
}
