ghost use Rattle.std.specs.Prelude.{◌≡◌, ◌<◌, ◌≤◌, ◌+◌, ◌^◌, ◌++◌, [], List, OnOk, OnErr, Some, None, length, slice_get};
ghost use Rattle.std.specs.Option.{option_copied};
ghost use Rattle.tree_base.specs.Entries.{value_at};
ghost use Rattle.wait_run.specs.Goals.{failed_now, is_settled_now, left_behind, met_now, reported_on, with_goal};
ghost use Rattle.wait_run.specs.declared.goals.Goal.{Goal};

use crate::goals::{Failing, Goal, Goals};
use engine_types::{Condition, Report};
use event_watch::next_verdict;
use health_watch::judge;
use run_model::Verdict;
use std::alloc::Global;
use tree_base::{List, Memory, Text, TextMap, TryCopy};

impl Goals {
    /// No goal yet. No memory.
    pub(crate) fn new(alloc: Global) -> Goals
        ensures containers { result.containers ≡ [] }
        ensures rows { result.rows ≡ [] }
        ensures places { result.places ≡ [] }
        ensures left { result.left ≡ 0 }
        ensures met { result.met ≡ [] }
        ensures failed { result.failed ≡ None }
    {
        Goals {
            containers: List::new(alloc),
            rows: List::new(alloc),
            places: TextMap::new(alloc),
            left: 0,
            met: List::new(alloc),
            failed: None,
        }
    }

    /// Puts the goal of the next slot last, whose container has this id. A slot before it with that container keeps it.
    pub(crate) fn push(
        &mut self,
        alloc: Global,
        condition: Condition,
        container: &Text,
    ) -> Result<(), Memory>
        ensures pushed { OnOk result (self.new ≡ with_goal self.old condition container.now) }
        ensures few { OnOk result (length self.old.rows < 2 ^ 32) }
    {
        let Ok(place) = u32::try_from(self.rows.len()) else {
            return Err(Memory);
        };
        if self.places.get(container).is_none() {
            self.places.put(container.copy(alloc)?, place)?;
        }
        self.containers.push(container.copy(alloc)?)?;
        self.rows.push(Goal {
            condition,
            verdict: Verdict::NotYet,
        })?;
        self.left = self.rows.len();
        Ok(())
    }

    /// Takes the report of a look at a slot's container.
    pub(crate) fn report(&mut self, s: u32, report: &Report) -> Result<(), Memory>
        ensures reported { OnOk result ((goal : Goal) → slice_get self.old.rows s ≡ Some goal
            → self.old.left ≤ 2 ^ 32 → self.new ≡ reported_on s report.now goal self.old) }
        ensures kept { OnErr result (self.new ≡ self.old) }
    {
        let at = s as usize;
        let Some(goal) = self.rows.get(at) else {
            return Ok(());
        };
        let goal = *goal;
        let after = next_verdict(goal.condition, goal.verdict, report);
        self.meet(s, goal.verdict, after)?;
        self.left = left_behind(self.left, goal.verdict, after);
        self.failed = failed_now(s, report, goal.condition, self.failed);
        self.rows.replace(
            at,
            Goal {
                condition: goal.condition,
                verdict: after,
            },
        );
        Ok(())
    }

    /// Puts a slot last of those whose goals were met, where its goal is met now.
    fn meet(&mut self, s: u32, before: Verdict, after: Verdict) -> Result<(), Memory>
        ensures met { OnOk result (self.new.met ≡ self.old.met ++ met_now s before after) }
        ensures kept { OnErr result (self.new.met ≡ self.old.met) }
        ensures containers { self.new.containers ≡ self.old.containers }
        ensures rows { self.new.rows ≡ self.old.rows }
        ensures places { self.new.places ≡ self.old.places }
        ensures left { self.new.left ≡ self.old.left }
        ensures failed { self.new.failed ≡ self.old.failed }
    {
        match (before, after) {
            (Verdict::NotYet, Verdict::Met) => self.met.push(s),
            _ => Ok(()),
        }
    }

    /// Whether nothing more has to be looked at: all goals are met, or one has failed. No memory.
    pub(crate) fn is_settled(&self) -> bool
        ensures { result ≡ is_settled_now self.now }
    {
        self.failed.is_some() || self.left == 0
    }

    /// The first slot whose container has an id. No memory.
    pub(crate) fn slot_with(&self, id: &Text) -> Option<u32>
        ensures { result ≡ value_at self.now.places id.now }
    {
        self.places.get(id).copied()
    }
}

/// How many goals are left where one's verdict turned. No memory.
fn left_behind(left: usize, before: Verdict, after: Verdict) -> usize
    ensures { left ≤ 2 ^ 32 → result ≡ left_behind left before after }
{
    match (before, after) {
        (Verdict::NotYet, Verdict::Met) => left.saturating_sub(1),
        (Verdict::Met, Verdict::Failed) => left.saturating_add(1),
        _ => left,
    }
}

/// The first report that failed a goal, behind one more. No memory.
fn failed_now(
    s: u32,
    report: &Report,
    condition: Condition,
    failed: Option<Failing>,
) -> Option<Failing>
    ensures { result ≡ failed_now s report.now condition failed }
{
    match failed {
        Some(failing) => Some(failing),
        None => match judge(condition, report) {
            Verdict::Failed => Some(Failing {
                slot: s,
                report: *report,
            }),
            _ => None,
        },
    }
}
