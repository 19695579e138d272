use tree_base::List;

/// What a run has to do: its actions, numbered by their places.
#[derive(Drop)]
pub struct Plan {
    pub actions: List<Action>,
    /// For each slot the place of the container that it keeps, among those that were seen.
    pub kept: List<Option<u64>>,
}

/// An action with the numbers of those that it needs.
#[derive(Drop)]
pub struct Action {
    pub kind: ActionKind,
    pub needs: List<u32>,
}

/// What an action does. Slots, networks and volumes are places in the declared set, containers places
/// among those that were seen.
#[derive(Clone, Copy, PartialEq, Eq)]
pub enum ActionKind {
    MakeVolume { volume: u32 },
    MakeNetwork { network: u32 },
    StopContainer { container: u64 },
    RemoveContainer { container: u64 },
    CreateSlot { slot: u32 },
    /// `attach` is a place among the slot's attaches.
    ConnectSlot { slot: u32, attach: u32 },
    /// Stops the container that the slot keeps, so that it starts anew.
    StopKept { slot: u32 },
    StartSlot { slot: u32 },
    RemoveNetwork { network: u32 },
    RemoveVolume { volume: u32 },
}
