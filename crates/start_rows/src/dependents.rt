ghost use Rattle.std.specs.Prelude.{◌≡◌, ◌<◌, ◌==◌, ℕ, [], None, Some, IfOk, get_or, length};
ghost use Rattle.tree_base.specs.Limits.{count_bound};
ghost use Rattle.run_model.specs.EngineRules.{Among};
ghost use Rattle.run_model.specs.Plans.{needs_of};
ghost use Rattle.ledger_rows.specs.Counts.{counted};
ghost use Rattle.plan_needs.specs.Waits.{waited};

use engine_types::{Action, Declared};
use ledger_rows::turned;
use plan_needs::{Wait, all_waited_for};
use std::alloc::Global;
use tree_base::{List, Memory};

/// For each action those that wait for it so, each as often as it does. The starts of the slots are by slot.
pub fn dependent_rows(
    alloc: Global,
    wait: Wait,
    declared: &Declared,
    actions: &[Action],
    starts: &[Option<u32>],
) -> Result<List<List<u32>>, Memory>
    requires small { length actions.now < count_bound }
    requires needs { (a b : ℕ) → Among (needs_of actions.now a) b → b < length actions.now }
    requires starts { (s b : ℕ) → get_or starts.now s None ≡ Some b → b < length actions.now }
    ensures size { IfOk result (λ rows. length rows ≡ length actions.now) }
    ensures each { IfOk result (λ rows. (x a : ℕ)
        → counted (λ b. b == a) (get_or rows x [])
        ≡ waited wait declared.now actions.now starts.now a x) }
{
    let waits = all_waited_for(alloc, wait, declared, actions, starts)?;
    turned(alloc, waits.as_slice())
}
