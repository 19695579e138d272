use rank_rows::RankRow;

/// The losses of one call; between calls there are none.
#[derive(Drop)]
pub struct Losses {
    /// The actions whose loss is still to be carried on.
    pub pending: RankRow,
    /// The actions that this call lost.
    pub fresh: RankRow,
}
