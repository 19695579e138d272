use engine_types::Entry;
use ledger_rows::ActionRows;
use run_requests::Run;

/// Where the requests of a run find what they name.
#[derive(Clone, Copy)]
pub struct Sources<'a> {
    pub run: Run<'a>,
    pub rows: &'a ActionRows,
    /// Oldest entry first.
    pub journal: &'a [Entry],
    /// By slot, the action that creates its container.
    pub creates: &'a [Option<u32>],
    /// By network, the action that makes it.
    pub makes: &'a [Option<u32>],
    /// By container that was seen, how many seconds its stop waits.
    pub seconds: &'a [u64],
}
