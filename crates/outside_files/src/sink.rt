ghost use Rattle.std.specs.Prelude.{◌≡◌, ℕ, ◌≤◌, List, Option, take};
ghost use Rattle.outside_files.specs.Sinks.{IsWriteOf, GrewBy, taken};

/// What a write answers.
#[derive(Debug, Clone, Copy, PartialEq, Eq)]
pub enum SinkAnswer {
    /// So many of the first bytes of the piece were taken.
    Took(usize),
    Failed,
}

/// A place that bytes are written to, one piece after another.
pub trait Sink: Drop {
    /// What was written, where it is told.
    ghost written: { Self → Option (List ℕ) };

    /// How many writes failed, or took nothing of a piece that wasn't empty.
    ghost faults: { Self → ℕ };

    /// Writes the first bytes of a piece, as many as the sink takes.
    fn write(&mut self, piece: &[u8]) -> SinkAnswer
        ensures counted { faults self.old ≤ faults self.new }
        ensures answer { IsWriteOf piece.now (faults self.old) (faults self.new) result }
        ensures told { GrewBy (written self.old)
            (take (taken result) piece.now) (written self.new) };
}
