ghost use Rattle.std.specs.Prelude.{◌≡◌};
ghost use Rattle.plan_rows.specs.Firsts.{place_of};

use engine_types::ActionKind;

/// Which actions a row is of.
#[derive(Clone, Copy, PartialEq, Eq)]
pub enum Row {
    /// For each slot the action that starts it.
    Starts,
    /// For each slot the action that creates its container.
    Creates,
    /// For each network the action that makes it.
    Makes,
}

/// The slot or network of an action of a row; None for other actions. No memory.
pub(crate) fn place_of(row: Row, kind: ActionKind) -> Option<u32>
    ensures { result ≡ place_of row kind }
{
    match (row, kind) {
        (Row::Starts, ActionKind::StartSlot { slot }) => Some(slot),
        (Row::Creates, ActionKind::CreateSlot { slot }) => Some(slot),
        (Row::Makes, ActionKind::MakeNetwork { network }) => Some(network),
        _ => None,
    }
}
