ghost use Rattle.std.specs.Prelude.{◌≡◌};

/// What a worker may do: an action, or a poll of a slot.
#[derive(Clone, Copy, PartialEq, Eq)]
pub enum Grant {
    Action(u32),
    Slot(u32),
}

/// Leave to make one exchange. Only `ask` makes one; it can't be copied, and is spent by `end`.
#[derive(Drop)]
pub struct Permit {
    pub(crate) worker: u32,
    pub(crate) grant: Grant,
}

impl Permit {
    /// The worker that it was given to. No memory.
    pub fn worker(&self) -> u32
        ensures { result ≡ self.now.worker }
    {
        self.worker
    }

    /// What it is for. No memory.
    pub fn grant(&self) -> Grant
        ensures { result ≡ self.now.grant }
    {
        self.grant
    }
}
