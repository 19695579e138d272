ghost use Rattle.std.specs.Prelude.{◌≡◌, ℕ, ◌<◌, ◌≤◌, Option, length, take};
ghost use Rattle.outside_files.specs.Sinks.{IsWriteOf, taken};
ghost use Rattle.outside_api.specs.Pipes.{Talk, ToldBy, IsGotOf, after_write, after_read};

use outside_files::SinkAnswer;

/// What a read of a connection answers.
#[derive(Clone, Copy, PartialEq, Eq)]
pub enum PipeAnswer {
    /// So many bytes were read into the room; none is the end.
    Got(usize),
    Failed,
}

/// One connection.
pub trait Pipe: Drop {
    /// What was written and read on it, where it is told.
    ghost talk: { Self → Option Talk };

    /// How many calls failed.
    ghost faults: { Self → ℕ };

    /// Writes the first bytes of a piece, as many as the connection takes.
    fn write(&mut self, piece: &[u8]) -> SinkAnswer
        ensures counted { faults self.old ≤ faults self.new }
        ensures answer { IsWriteOf piece.now (faults self.old) (faults self.new) result }
        ensures told { ToldBy (after_write (take (taken result) piece.now)) (talk self.old)
            (talk self.new) };

    /// Reads the next bytes into the room, which isn't empty.
    fn read(&mut self, room: &mut [u8]) -> PipeAnswer
        requires { 0 < length room.old }
        ensures counted { faults self.old ≤ faults self.new }
        ensures answer { IsGotOf (length room.old) (faults self.old) (faults self.new) result }
        ensures told { ToldBy (after_read room.new result) (talk self.old) (talk self.new) };
}
