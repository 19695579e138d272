ghost use Rattle.std.specs.Prelude.{◌≡◌};
ghost use Rattle.plan_needs.specs.Waits.{begins_with_needs, is_wanted};

use engine_types::{Condition, Need};

/// What an action waits for.
#[derive(Clone, Copy, PartialEq, Eq)]
pub enum Wait {
    /// What it needs, and the starts of its required needs: their loss blocks it.
    Required,
    /// The starts of its other needs: their loss lets it go.
    Optional,
    /// What it needs, and the starts of its needs for Started: their good end lets it go.
    Started,
}

/// Whether the actions that an action needs are among those that it waits for so. No memory.
pub(crate) fn begins_with_needs(wait: Wait) -> bool
    ensures { result ≡ begins_with_needs wait }
{
    match wait {
        Wait::Optional => false,
        _ => true,
    }
}

/// Whether it waits so for the start that a need names. No memory.
pub(crate) fn is_wanted(wait: Wait, need: &Need) -> bool
    ensures { result ≡ is_wanted wait need.now }
{
    match wait {
        Wait::Required => need.required,
        Wait::Optional => !need.required,
        Wait::Started => match need.condition {
            Condition::Started => true,
            _ => false,
        },
    }
}
