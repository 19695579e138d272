use tree_base::List;

/// Where a request finds what it names.
#[derive(Drop)]
pub struct Places {
    /// By slot, the action that creates its container.
    pub creates: List<Option<u32>>,
    /// By network, the action that makes it.
    pub makes: List<Option<u32>>,
    /// By container that was seen, how many seconds its stop waits.
    pub seconds: List<u64>,
}
