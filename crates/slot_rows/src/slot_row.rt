ghost use Rattle.std.specs.Prelude.{◌≡◌};
ghost use Rattle.run_model.specs.Conditions.{is_failed_verdict};
ghost use Rattle.slot_rows.specs.Keys.{is_goal_open, is_needed, slot_key, verdict_on};

use engine_types::Condition;
use run_model::Verdict;

/// What is known of a slot.
#[derive(Clone, Copy)]
pub struct SlotRow {
    /// Its reports count.
    pub counts: bool,
    /// A poll of it is out.
    pub out: bool,
    /// How often it was polled.
    pub polls: u32,
    pub healthy: Verdict,
    pub completed: Verdict,
    pub running: Verdict,
    /// How many needs of starts that are still to come ask for Healthy.
    pub healthy_askers: u32,
    /// How many of them ask for Completed.
    pub completed_askers: u32,
    /// What the run waits for on it, if it waits for goals.
    pub goal: Option<Condition>,
}

/// The key of a slot in the order of polls: how often it was polled, where it may be. No memory.
pub(crate) fn key_of(row: SlotRow) -> Option<u32>
    ensures { result ≡ slot_key row }
{
    if row.counts && (is_needed(row) || is_goal_open(row)) && !row.out {
        Some(row.polls)
    } else {
        None
    }
}

/// Whether a start that is still to come asks for a condition that hasn't failed.
fn is_needed(row: SlotRow) -> bool
    ensures { result ≡ is_needed row }
{
    (row.healthy_askers > 0 && !is_failed(row.healthy))
        || (row.completed_askers > 0 && !is_failed(row.completed))
}

fn is_failed(verdict: Verdict) -> bool
    ensures { result ≡ is_failed_verdict verdict }
{
    match verdict {
        Verdict::Failed => true,
        _ => false,
    }
}

/// Whether the goal is neither met nor failed.
fn is_goal_open(row: SlotRow) -> bool
    ensures { result ≡ is_goal_open row }
{
    match row.goal {
        Some(goal) => match verdict_on(row, goal) {
            Verdict::NotYet => true,
            _ => false,
        },
        None => false,
    }
}

/// What the reports so far say of a condition; Started is met where they count.
fn verdict_on(row: SlotRow, condition: Condition) -> Verdict
    ensures { result ≡ verdict_on row condition }
{
    match condition {
        Condition::Started => Verdict::Met,
        Condition::Healthy => row.healthy,
        Condition::Completed => row.completed,
        Condition::Running => row.running,
    }
}
