use tree_base::List;

/// For one condition: by slot, the starts that ask for it.
#[derive(Drop)]
pub struct Asking {
    /// Each as often as it asks.
    pub asking: List<List<u32>>,
    /// Those that require it.
    pub required: List<List<u32>>,
    /// Those that don't require it, each as often as it asks so.
    pub optional: List<List<u32>>,
}

/// Rows that a plan fixes: whom the end of an action lets go or blocks, and who asks for a report on a slot.
#[derive(Drop)]
pub struct Dependents {
    /// By action, those that its good end lets go.
    pub released: List<List<u32>>,
    /// By action, those that its loss blocks.
    pub stopped: List<List<u32>>,
    /// By action, those that its loss lets go.
    pub freed: List<List<u32>>,
    pub healthy: Asking,
    pub completed: Asking,
}
