use engine_types::Entry;
use refusals::Refusal;
use tree_base::List;

/// What came of a call: the exit status, the journal of the run, the hands that were made, and what the call
/// is refused with, None exactly at status 0.
#[derive(Drop)]
pub struct Ended<H> {
    pub status: u8,
    pub journal: List<Entry>,
    pub hands: List<H>,
    pub refusal: Option<Refusal>,
}
