ghost use Rattle.std.specs.Prelude.{◌≡◌, ◌<◌, ℕ};

use case_files::Line;

/// How many cases ran, and how they came out.
#[derive(Clone, Copy)]
pub struct Counts {
    pub files: u64,
    pub cases: u64,
    /// Cases whose answers differ from those that are wanted.
    pub differ: u64,
    /// Cases that are none.
    pub no_cases: u64,
    /// Files that aren't read.
    pub unread: u64,
}

impl Counts {
    /// Nothing ran yet.
    pub fn new() -> Counts {
        Counts {
            files: 0,
            cases: 0,
            differ: 0,
            no_cases: 0,
            unread: 0,
        }
    }

    /// The exit status: 2 where a case is none or a file isn't read, else 1 where a case differs, else 0.
    pub fn status(&self) -> u8
        ensures no_case { 0 < self.now.no_cases → result ≡ 2 }
        ensures unread { 0 < self.now.unread → result ≡ 2 }
        ensures differ { self.now.no_cases ≡ 0 → self.now.unread ≡ 0
            → 0 < self.now.differ → result ≡ 1 }
        ensures as_wanted { self.now.no_cases ≡ 0 → self.now.unread ≡ 0
            → self.now.differ ≡ 0 → result ≡ 0 }
    {
        if self.no_cases > 0 || self.unread > 0 {
            2
        } else if self.differ > 0 {
            1
        } else {
            0
        }
    }

    /// Says them, as `1043 cases in 31 files: all as wanted`, or
    /// `1043 cases in 31 files: 2 differ, 1 is no case, 1 file isn't read`.
    pub fn say(&self, line: &mut Line) {
        line.put_number(self.cases);
        line.put(" cases in ");
        line.put_number(self.files);
        line.put(" files: ");
        if self.status() == 0 {
            line.put("all as wanted");
        } else {
            self.say_faults(line);
        }
    }

    fn say_faults(&self, line: &mut Line) {
        line.put_number(self.differ);
        line.put(if self.differ == 1 {
            " differs"
        } else {
            " differ"
        });
        say_fault(line, self.no_cases, " is no case", " are no cases");
        say_fault(line, self.unread, " file isn't read", " files aren't read");
    }
}

/// Says how many there are, where there are any.
fn say_fault(line: &mut Line, count: u64, one: &str, many: &str) {
    if count > 0 {
        line.put(", ");
        line.put_number(count);
        line.put(if count == 1 { one } else { many });
    }
}
