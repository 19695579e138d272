use crate::seen::Purpose;

/// What a run is for: to bring a project up or to take it down, and what goes with that.
#[derive(Debug, Clone, Copy, PartialEq, Eq)]
pub struct Aim {
    pub purpose: Purpose,
    /// Whether the project's containers of services that it doesn't declare go too.
    pub orphans: bool,
    /// Whether `down` takes the declared volumes too.
    pub volumes: bool,
}
