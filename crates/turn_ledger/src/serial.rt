ghost use Rattle.std.specs.Prelude.{◌≡◌, ℕ, ◌<◌, ◌≤◌, ◌^◌, List, [], ◌∷◌, ◌++◌, length};
ghost use Rattle.turn_ledger.specs.Own.{own};

/// An object whose turns each append one entry to its journal.
pub trait Serial {
    /// What is asked in a turn.
    type Call;

    /// What a turn answers.
    type Answer;

    /// What a turn appends to the journal.
    type Entry;

    /// What the object keeps of its opening.
    type Origin;

    /// The entries so far, those of the opening first.
    ghost journal: { Self → List Self.Entry };

    /// What the object was opened with.
    ghost origin: { Self → Self.Origin };

    /// The number under which an entry stands.
    ghost by: { Self.Entry → ℕ };

    /// That a number may make a call, by what the object was opened with and the number's own entries.
    ghost allows: { Self.Origin → ℕ → List Self.Entry → Self.Call → Type 0 };

    /// What a call gives at a journal: its answer and its entry.
    ghost gives: { Self.Origin → List Self.Entry → ℕ → Self.Call → Self.Answer → Self.Entry
        → Type 0 };

    /// The length that no journal passes.
    ghost most: { ℕ };

    /// Makes a call under a number, and appends its entry.
    fn turn(&mut self, who: u32, call: Self::Call) -> Self::Answer
        requires { allows (origin self.old) who (own by who (journal self.old)) call }
        ensures turned { (e : Self.Entry) × (journal self.new ≡ journal self.old ++ e ∷ [])
            × (by e ≡ who) × gives (origin self.old) (journal self.old) who call result e }
        ensures origin { origin self.new ≡ origin self.old }
        ensures room { length (journal self.new) ≤ most };

    /// Numbers of entries fit into 64 bits.
    ghost small: { most < 2 ^ 63 };
}
