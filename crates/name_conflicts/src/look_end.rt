/// How looking for what a create would make ended.
#[derive(Clone, Copy)]
pub enum LookEnd {
    /// The last listing shows it.
    Came,
    /// No listing shows it, of as many as there may be.
    Missed,
    /// The hand was told to stop.
    Stopped,
    /// The deadline was met.
    Late,
    /// The last exchange gave no listing.
    Unlisted,
    /// Memory was wanted.
    Memory,
}
