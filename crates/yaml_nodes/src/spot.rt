use tree_base::Place;

/// Where something stands, seen from the row that is being read.
#[derive(Clone, Copy, Drop)]
pub enum Spot {
    /// At a character of the row.
    Here(usize),
    /// At a place in a row before it.
    Before(Place),
}
