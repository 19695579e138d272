ghost use Rattle.std.specs.Prelude.{◌≡◌, [], ◌+◌, ◌<◌, ◌≤◌, ◌^◌, ◌==◌, true, false, length, take};
ghost use Rattle.httparse.specs.Ascii.{line_feed};
ghost use Rattle.http_heads.specs.Searches.{HasFollowed, IsAt, IsFollowed, ends_after, filled_after, is_filled, line_after, part_told, searched_part, with_more};

/// What a search answers.
#[derive(Clone, Copy, PartialEq, Eq)]
pub enum SearchAnswer {
    /// The part ends within its limits, after so many bytes.
    Ends(usize),
    /// It passed a limit.
    Passed,
    /// Its end wasn't read yet.
    Unfinished,
}

/// What the line that is followed is so far.
#[derive(Clone, Copy, PartialEq, Eq)]
enum LineStart {
    Nothing,
    /// A carriage return alone.
    Return,
    Text,
}

/// A search for the empty line that ends a head, or the lines behind a last chunk. Each byte is looked at once, however
/// the bytes are cut.
#[derive(Drop)]
pub struct LineSearch {
    /// Whether empty lines may stand in front.
    leading: bool,
    /// How many bytes were looked at.
    at: usize,
    /// How many lines that aren't empty were found.
    filled: usize,
    line: LineStart,
}

impl LineSearch {
    /// A search for the end of a head, before which empty lines may stand. No memory.
    pub fn of_head() -> LineSearch
        ensures leading { result.leading ≡ true }
        ensures followed { HasFollowed result [] }
    {
        LineSearch {
            leading: true,
            at: 0,
            filled: 0,
            line: LineStart::Nothing,
        }
    }

    /// A search for the end of the lines behind a last chunk. No memory.
    pub fn of_trailer() -> LineSearch
        ensures leading { result.leading ≡ false }
        ensures followed { HasFollowed result [] }
    {
        LineSearch {
            leading: false,
            at: 0,
            filled: 0,
            line: LineStart::Nothing,
        }
    }

    /// The part that the bytes begin with: at most `room` bytes with at most `most` lines that aren't empty. The bytes
    /// begin with those of the call before. No memory.
    pub fn part(&mut self, bytes: &[u8], room: usize, most: usize) -> SearchAnswer
        requires { HasFollowed self.old bytes.now }
        ensures exact { part_told result ≡ searched_part self.old.leading room most bytes.now }
        ensures leading { self.new.leading ≡ self.old.leading }
        ensures followed { result ≡ SearchAnswer.Unfinished → HasFollowed self.new bytes.now }
    {
        let found = self.follow(bytes);
        if self.filled > most {
            SearchAnswer::Passed
        } else if found && self.at <= room {
            SearchAnswer::Ends(self.at)
        } else if bytes.len() > room {
            SearchAnswer::Passed
        } else {
            SearchAnswer::Unfinished
        }
    }

    /// Looks at the next bytes up to the empty line, and whether there is one.
    fn follow(&mut self, bytes: &[u8]) -> bool
        requires { HasFollowed self.old bytes.now }
        ensures leading { self.new.leading ≡ self.old.leading }
        ensures within { self.new.at ≤ length bytes.now }
        ensures few { self.new.filled ≤ self.new.at }
        ensures at { IsAt result self.new.leading (take self.new.at bytes.now) self.new.filled
            self.new.line }
        ensures all { result ≡ false → self.new.at ≡ length bytes.now }
    {
        let mut found = false;
        while !found && self.at < bytes.len() {
            found = self.ends_with(bytes[self.at]);
            self.at += 1;
        }
        found
    }

    /// Looks at one byte, and whether it ends the empty line.
    fn ends_with(&mut self, byte: u8) -> bool
        requires { self.old.filled + 1 < 2 ^ 64 }
        ensures leading { self.new.leading ≡ self.old.leading }
        ensures at { self.new.at ≡ self.old.at }
        ensures line { self.new.line ≡ line_after (byte == line_feed) self.old.line byte }
        ensures filled { self.new.filled ≡
            filled_after (byte == line_feed) self.old.line self.old.filled }
        ensures ends { result ≡ ends_after (byte == line_feed) self.old.leading
            self.old.line self.old.filled }
    {
        if byte == b'\n' {
            return self.ends_line();
        }
        self.line = with_more(self.line, byte);
        false
    }

    /// Ends the line, and whether it is the empty line that is looked for.
    fn ends_line(&mut self) -> bool
        requires { self.old.filled + 1 < 2 ^ 64 }
        ensures leading { self.new.leading ≡ self.old.leading }
        ensures at { self.new.at ≡ self.old.at }
        ensures line { self.new.line ≡ LineStart.Nothing }
        ensures filled { self.new.filled ≡ filled_after true self.old.line self.old.filled }
        ensures ends { result ≡ ends_after true self.old.leading self.old.line self.old.filled }
    {
        let filled = is_filled(self.line);
        self.line = LineStart::Nothing;
        if filled {
            self.filled += 1;
            return false;
        }
        self.filled > 0 || !self.leading
    }
}

fn with_more(line: LineStart, byte: u8) -> LineStart
    ensures { result ≡ with_more line byte }
{
    match line {
        LineStart::Nothing => {
            if byte == b'\r' {
                LineStart::Return
            } else {
                LineStart::Text
            }
        }
        LineStart::Return => LineStart::Text,
        LineStart::Text => LineStart::Text,
    }
}

fn is_filled(line: LineStart) -> bool
    ensures { result ≡ is_filled line }
{
    match line {
        LineStart::Text => true,
        LineStart::Return => false,
        LineStart::Nothing => false,
    }
}
