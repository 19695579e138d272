ghost use Rattle.std.specs.Prelude.{◌≡◌};
ghost use Rattle.ledger_rows.specs.Facts.{same_condition};
ghost use Rattle.start_rows.specs.Asks.{asks};

use engine_types::{Condition, Need};

/// Which needs ask for a condition of a slot.
#[derive(Clone, Copy, PartialEq, Eq)]
pub enum Ask {
    /// Each that names it.
    Any,
    /// Those that require it.
    Required,
    /// Those that don't.
    Optional,
}

/// Whether a need asks so for this condition, of whatever slot. No memory.
pub(crate) fn asks(ask: Ask, condition: Condition, need: &Need) -> bool
    ensures { result ≡ asks ask condition need.now }
{
    let named = is_same(need.condition, condition);
    match ask {
        Ask::Any => named,
        Ask::Required => need.required && named,
        Ask::Optional => !need.required && named,
    }
}

fn is_same(condition: Condition, other: Condition) -> bool
    ensures { result ≡ same_condition condition other }
{
    match (condition, other) {
        (Condition::Started, Condition::Started) => true,
        (Condition::Healthy, Condition::Healthy) => true,
        (Condition::Completed, Condition::Completed) => true,
        (Condition::Running, Condition::Running) => true,
        _ => false,
    }
}
