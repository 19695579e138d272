use tree_base::Text;

/// Why a model has no active services.
#[derive(Drop)]
pub enum ActiveRefusal {
    /// An enabled service requires another one, which is there and isn't enabled.
    DependencyDisabled { service: Text, dependency: Text },
    /// Memory was wanted.
    Memory,
}
