ghost use Rattle.std.specs.Prelude.{◌≡◌, ℕ, false, true, Err, IfOk, IfErr};
ghost use Rattle.engine_types.specs.declared.SeenEnd.{SeenEnd};
ghost use Rattle.plan_core.specs.declared.refusal.PlanRefusal.{PlanRefusal};
ghost use Rattle.project_run.specs.Opening.{Follows, IsWholeEnd, Opens, observation_of};
ghost use Rattle.ledger_run.specs.Tellings.{telling};
ghost use Rattle.run_model.specs.Plans.{AreKeptPlaces, IsWhole, action_count, basis_of, is_too_long, up_aim};
ghost use Rattle.run_model.specs.Rolling.{run_actions};

use engine_types::{Aim, Declared, Exchange, Observed, Plan, Purpose, Seen, SeenEnd, SeenFault};
use observe_project::observe;
use outside_api::Hand;
use plan_core::{PlanRefusal, plan_down, plan_up};
use rolling_update::roll;
use std::alloc::Global;
use tree_base::{List, Memory};

/// How a run opened.
#[derive(Drop)]
pub enum Opening {
    /// The observation ended well: it, and the plan that is made from what it saw.
    Planned { observed: Observed, plan: Plan },
    /// The observation ended badly, and nothing follows it.
    Ended(Observed),
}

/// Observes and plans. A plan that is too long, or for which there is no memory, is a bad end of the observation.
pub fn open<H: Hand>(alloc: Global, hand: &mut H, declared: &Declared, aim: Aim) -> Opening
    requires whole { IsWhole declared.now }
    ensures { Opens declared.now aim result
        (telling (H.log hand.old) (H.heard hand.old) (H.faults hand.old) (H.clock hand.old)
        (H.engine hand.old))
        (telling (H.log hand.new) (H.heard hand.new) (H.faults hand.new) (H.clock hand.new)
        (H.engine hand.new)) }
{
    let Observed { exchanges, end } = observe(alloc, hand, declared, aim.purpose);
    match end {
        SeenEnd::Good(seen) => after_seen(alloc, declared, exchanges, seen, aim),
        SeenEnd::Bad(fault) => ended(exchanges, fault),
    }
}

/// What follows an observation that ended badly.
fn ended(exchanges: List<Exchange>, fault: SeenFault) -> Opening
    ensures { result ≡ Opening.Ended (record {
      exchanges = exchanges;
      end = SeenEnd.Bad fault;
    }) }
{
    Opening::Ended(Observed {
        exchanges,
        end: SeenEnd::Bad(fault),
    })
}

/// What follows where the exchanges of an observation told this.
fn after_seen(
    alloc: Global,
    declared: &Declared,
    exchanges: List<Exchange>,
    seen: Seen,
    aim: Aim,
) -> Opening
    requires whole { IsWhole declared.now }
    ensures exchanges { (observation_of result).exchanges ≡ exchanges }
    ensures end { IsWholeEnd declared.now aim (SeenEnd.Good seen)
        (observation_of result).end }
    ensures follows { Follows declared.now aim result }
{
    match plan_for(alloc, declared, &seen, aim) {
        Ok(plan) => {
            let end = SeenEnd::Good(seen);
            let observed = Observed { exchanges, end };
            Opening::Planned { observed, plan }
        }
        Err(fault) => {
            drop(seen);
            ended(exchanges, fault)
        }
    }
}

/// The plan of an aim, with what each action needs in a run, or why there is none as a fault of the observation.
fn plan_for(alloc: Global, declared: &Declared, seen: &Seen, aim: Aim) -> Result<Plan, SeenFault>
    requires whole { IsWhole declared.now }
    ensures planned { IfOk result (λ plan.
        plan.actions ≡ run_actions (basis_of declared.now seen.now aim)) }
    ensures fits { IfOk result (λ plan.
        is_too_long (basis_of declared.now seen.now aim) ≡ false) }
    ensures kept { IfOk result (λ plan. AreKeptPlaces declared.now seen.now plan.kept) }
    ensures err { IfErr result (λ fault.
        IsWholeEnd declared.now aim (SeenEnd.Good seen.now) (SeenEnd.Bad fault)) }
{
    match plan_by(alloc, declared, seen, aim) {
        Ok(plan) => Ok(plan),
        Err(PlanRefusal::TooManyActions { count }) => Err(SeenFault::TooManyActions { count }),
        Err(PlanRefusal::Memory) => Err(SeenFault::Memory),
    }
}

/// The plan of an aim, with what each action needs in a run.
fn plan_by(alloc: Global, declared: &Declared, seen: &Seen, aim: Aim) -> Result<Plan, PlanRefusal>
    requires whole { IsWhole declared.now }
    ensures planned { IfOk result (λ plan.
        plan.actions ≡ run_actions (basis_of declared.now seen.now aim)) }
    ensures fits { IfOk result (λ plan.
        is_too_long (basis_of declared.now seen.now aim) ≡ false) }
    ensures kept { IfOk result (λ plan. AreKeptPlaces declared.now seen.now plan.kept) }
    ensures too_many { (count : ℕ) → result ≡ Err (PlanRefusal.TooManyActions count)
        → (is_too_long (basis_of declared.now seen.now aim) ≡ true)
        × (count ≡ action_count (basis_of declared.now seen.now aim)) }
{
    match aim.purpose {
        Purpose::Up => rolled_up(alloc, declared, seen, aim.orphans),
        Purpose::Down => plan_down(alloc, declared, seen, aim.orphans, aim.volumes),
    }
}

/// The plan that brings a project up, with the needs that rolling updates add.
fn rolled_up(
    alloc: Global,
    declared: &Declared,
    seen: &Seen,
    orphans: bool,
) -> Result<Plan, PlanRefusal>
    requires whole { IsWhole declared.now }
    ensures planned { IfOk result (λ plan.
        plan.actions ≡ run_actions (basis_of declared.now seen.now (up_aim orphans))) }
    ensures fits { IfOk result (λ plan.
        is_too_long (basis_of declared.now seen.now (up_aim orphans)) ≡ false) }
    ensures kept { IfOk result (λ plan. AreKeptPlaces declared.now seen.now plan.kept) }
    ensures too_many { (count : ℕ) → result ≡ Err (PlanRefusal.TooManyActions count)
        → (is_too_long (basis_of declared.now seen.now (up_aim orphans)) ≡ true)
        × (count ≡ action_count (basis_of declared.now seen.now (up_aim orphans))) }
{
    let plan = plan_up(alloc, declared, seen, orphans)?;
    match roll(alloc, declared, seen, plan) {
        Ok(plan) => Ok(plan),
        Err(Memory) => Err(PlanRefusal::Memory),
    }
}
