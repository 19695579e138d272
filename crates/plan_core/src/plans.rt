ghost use Rattle.std.specs.Prelude.{◌≡◌, ℕ, IfOk, Err, map, false, true};
ghost use Rattle.engine_types.specs.declared.Action.{Action};
ghost use Rattle.plan_core.specs.Finding.{actions_under, removals_in};
ghost use Rattle.run_model.specs.Plans.{AreKeptPlaces, action_count, basis_of, down_aim, is_too_long, needed_by, planned, up_aim};

use crate::needed::removals_in;
use crate::planner::Planner;
use crate::refusal::PlanRefusal;
use crate::slot_texts::SlotTexts;
use crate::text_index::TextIndex;
use engine_types::{Action, ActionKind, Aim, Declared, Plan, Purpose, Seen};
use std::alloc::Global;
use tree_base::limits::MOST_ACTIONS;
use tree_base::{List, Memory};

/// The plan that brings a project up: the volumes and networks that weren't seen are made; the project's containers
/// that no slot keeps are stopped and removed, orphans where these are asked for; then a container is created for
/// each slot that keeps none, and connected to its other networks; live ones that are kept are stopped where a need
/// asks to start them anew; and those that aren't live then are started. It tells which container each slot keeps.
pub fn plan_up(
    alloc: Global,
    declared: &Declared,
    seen: &Seen,
    orphans: bool,
) -> Result<Plan, PlanRefusal>
    ensures planned { IfOk result (λ plan.
        plan.actions ≡ planned (basis_of declared.now seen.now (up_aim orphans))) }
    ensures kept { IfOk result (λ plan. AreKeptPlaces declared.now seen.now plan.kept) }
    ensures fits { IfOk result (λ plan.
        is_too_long (basis_of declared.now seen.now (up_aim orphans)) ≡ false) }
    ensures too_many { (count : ℕ) → result ≡ Err (PlanRefusal.TooManyActions count)
        → (is_too_long (basis_of declared.now seen.now (up_aim orphans)) ≡ true)
        × (count ≡ action_count (basis_of declared.now seen.now (up_aim orphans))) }
{
    let aim = Aim {
        purpose: Purpose::Up,
        orphans,
        volumes: false,
    };
    plan_for(alloc, declared, seen, aim)
}

/// The plan that takes a project down: the containers of its services are stopped and removed, dependents
/// first, and orphans where these are asked for; then its networks are removed, and its volumes where these are
/// asked for.
pub fn plan_down(
    alloc: Global,
    declared: &Declared,
    seen: &Seen,
    orphans: bool,
    volumes: bool,
) -> Result<Plan, PlanRefusal>
    ensures planned { IfOk result (λ plan.
        plan.actions ≡ planned (basis_of declared.now seen.now (down_aim orphans volumes))) }
    ensures kept { IfOk result (λ plan. AreKeptPlaces declared.now seen.now plan.kept) }
    ensures fits { IfOk result (λ plan.
        is_too_long (basis_of declared.now seen.now (down_aim orphans volumes)) ≡ false) }
    ensures too_many { (count : ℕ) → result ≡ Err (PlanRefusal.TooManyActions count)
        → (is_too_long (basis_of declared.now seen.now (down_aim orphans volumes)) ≡ true)
        × (count ≡ action_count (basis_of declared.now seen.now (down_aim orphans volumes))) }
{
    let aim = Aim {
        purpose: Purpose::Down,
        orphans,
        volumes,
    };
    plan_for(alloc, declared, seen, aim)
}

/// The plan of an aim. At `up` volumes stay, asked for or not.
fn plan_for(alloc: Global, declared: &Declared, seen: &Seen, aim: Aim) -> Result<Plan, PlanRefusal>
    ensures planned { IfOk result (λ plan.
        plan.actions ≡ planned (basis_of declared.now seen.now aim)) }
    ensures kept { IfOk result (λ plan. AreKeptPlaces declared.now seen.now plan.kept) }
    ensures fits { IfOk result (λ plan.
        is_too_long (basis_of declared.now seen.now aim) ≡ false) }
    ensures too_many { (count : ℕ) → result ≡ Err (PlanRefusal.TooManyActions count)
        → (is_too_long (basis_of declared.now seen.now aim) ≡ true)
        × (count ≡ action_count (basis_of declared.now seen.now aim)) }
{
    let texts = SlotTexts::new(alloc, declared, seen)?;
    let planner = Planner::new(alloc, declared, seen, &texts, aim)?;
    planner.plan(alloc)
}

impl Planner<'_> {
    /// The plan, or the refusal of one that is too long.
    fn plan(&self, alloc: Global) -> Result<Plan, PlanRefusal>
        ensures planned { IfOk result (λ plan. plan.actions ≡ planned self.now) }
        ensures kept { IfOk result (λ plan.
            AreKeptPlaces self.now.declared self.now.seen plan.kept) }
        ensures fits { IfOk result (λ plan. is_too_long self.now ≡ false) }
        ensures too_many { (count : ℕ) → result ≡ Err (PlanRefusal.TooManyActions count)
            → (is_too_long self.now ≡ true) × (count ≡ action_count self.now) }
    {
        let kinds = self.planned_kinds(alloc)?;
        if kinds.len() > MOST_ACTIONS {
            return Err(PlanRefusal::TooManyActions {
                count: kinds.len() as u64,
            });
        }
        let actions = self.actions_of(alloc, kinds.as_slice())?;
        let kept = self.kept_places(alloc)?;
        Ok(Plan { actions, kept })
    }

    /// Each of a plan's actions with its needs.
    fn actions_of(&self, alloc: Global, kinds: &[ActionKind]) -> Result<List<Action>, Memory>
        ensures { IfOk result (λ actions. actions
            ≡ map (λ kind. record {
              kind = kind;
              needs = needed_by self.now kinds.now kind;
            }) kinds.now) }
    {
        let index = self.actions_under(alloc, kinds)?;
        let removals = removals_in(alloc, kinds)?;
        self.actions_by(alloc, kinds, &index, removals.as_slice())
    }

    /// The same, where the actions stand under their texts, and the removals are listed.
    fn actions_by(
        &self,
        alloc: Global,
        kinds: &[ActionKind],
        index: &TextIndex<'_>,
        removals: &[u32],
    ) -> Result<List<Action>, Memory>
        requires indexed { index.now ≡ actions_under self.now kinds.now }
        requires listed { removals.now ≡ removals_in kinds.now }
        ensures { IfOk result (λ actions. actions
            ≡ map (λ kind. record {
              kind = kind;
              needs = needed_by self.now kinds.now kind;
            }) kinds.now) }
    {
        let mut actions = List::new(alloc);
        for kind in kinds {
            let needs = self.needed_by(alloc, kinds, index, removals, *kind)?;
            actions.push(Action { kind: *kind, needs })?;
        }
        Ok(actions)
    }
}
