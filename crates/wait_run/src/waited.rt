ghost use Rattle.std.specs.Prelude.{◌≡◌};
ghost use Rattle.wait_run.specs.Ends.{status_of};

use crate::refusal::WaitRefusal;
use tree_base::List;

/// What a wait came to.
#[derive(Drop)]
pub struct Waited {
    /// Why it ended; None where all goals are met.
    pub refusal: Option<WaitRefusal>,
    /// The places of the slots whose goals were met, in the order in which they first were.
    pub met: List<u32>,
}

impl Waited {
    /// Its exit status: 0 exactly where all goals are met. No memory.
    pub fn status(&self) -> u8
        ensures { result ≡ status_of self.now.refusal }
    {
        match &self.refusal {
            Some(refusal) => refusal.status(),
            None => 0,
        }
    }
}
