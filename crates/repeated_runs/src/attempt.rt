use compose_cli::Ended;
use tree_base::List;

/// A run that was made again: what it ended with, and the hand that looked behind it.
#[derive(Drop)]
pub struct Attempt<H> {
    pub ended: Ended<H>,
    pub looker: H,
}

/// What came of a call: the runs that were made again, oldest first; what the call ended with, which is what its last run did; and
/// the hand that looked behind the last run, where one did.
#[derive(Drop)]
pub struct Attempts<H> {
    pub earlier: List<Attempt<H>>,
    pub last: Ended<H>,
    pub looker: Option<H>,
}
