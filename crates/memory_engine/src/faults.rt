use tree_base::List;

/// What goes wrong with the exchanges on an Engine in memory, which count from 1 over its life.
#[derive(Drop)]
pub struct FaultPlan {
    /// The exchanges whose answer is lost.
    pub lost: List<LostAt>,
    /// The exchanges that aren't sent.
    pub unsent: List<u64>,
    /// After so many exchanges every worker is asked to stop.
    pub asked_from: Option<u64>,
}

/// An exchange whose answer is lost, and whether the request takes effect.
#[derive(Clone, Copy)]
pub struct LostAt {
    pub exchange: u64,
    pub effect: bool,
}
