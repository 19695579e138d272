ghost use Rattle.std.specs.Prelude.{◌≡◌, List, None, Some, codes};
ghost use Rattle.engine_types.specs.declared.ActionKind.TheVariants.{CreateSlot};
ghost use Rattle.engine_types.specs.declared.Engine.{Engine};
ghost use Rattle.cut_laws.specs.Once.{IsOnce, IsPending};
ghost use Rattle.run_model.specs.Cuts.{Runs};
ghost use Rattle.run_model.specs.EngineRules.{TellsSteps, exchanges_in};
ghost use Rattle.run_model.specs.Exact.{IsExact, IsGone};
ghost use Rattle.run_laws.specs.OneService.{comes_up, shop, upping};
ghost use Rattle.run_laws.specs.OneWorld.{fresh, moves, up};
ghost use Rattle.run_laws.specs.OtherRuns.{downing, goes_down};
ghost use Rattle.run_model.specs.Plans.{IsWhole};
ghost use Rattle.run_model.specs.Runs.{IsRun, IsWorldOfRun, run_exchanges, run_fault, run_setup};
ghost use Rattle.run_laws.specs.TwoNetworks as two;
ghost use Rattle.run_laws.specs.TwoWorlds as worlds;
ghost use Rattle.run_model.specs.Worlds.{Move};
ghost use Rattle.run_laws.specs.OneDown as down;
ghost use Rattle.world_laws.specs.OwnSpecs.{HasOwnSpecs};

use crate::worked::{
    lost_create_is_found, lost_create_is_made_once, one_service_comes_up, one_service_is_exact,
    second_run_and_down,
};

/// The run of one service on a fresh Engine has all that the law on exactness asks for, and so the Engine holds exactly
/// what is declared.
pub fn one_service_is_held_exactly()
    ensures whole { IsWhole shop }
    ensures own { HasOwnSpecs shop }
    ensures run { IsRun (upping shop) comes_up }
    ensures sound { run_fault (upping shop) comes_up ≡ None }
    ensures world { IsWorldOfRun (upping shop) comes_up fresh moves up }
    ensures exact { IsExact shop up (upping shop).aim.orphans }
{
    one_service_comes_up();
    one_service_is_exact();
}

/// The same of a run that finds a service's container on one of its two networks, and connects it to the other one.
pub fn two_networks_are_held_exactly()
    ensures whole { IsWhole two.shop }
    ensures own { HasOwnSpecs two.shop }
    ensures run { IsRun (upping two.shop) two.connects }
    ensures sound { run_fault (upping two.shop) two.connects ≡ None }
    ensures world { (first : Engine) × IsWorldOfRun
        (upping two.shop) two.connects first worlds.second_moves worlds.after }
    ensures exact { IsExact two.shop worlds.after (upping two.shop).aim.orphans }
{
    lost_create_is_found();
    lost_create_is_made_once();
}

/// A create that is lost is pending while none was made; it takes effect after its run, and the next run finds its
/// container: so the laws on runs that were cut off have their premises met, and one is all that they allow.
pub fn lost_create_stands_once()
    ensures whole { IsWhole two.shop }
    ensures own { HasOwnSpecs two.shop }
    ensures runs { Runs two.shop (λ image. codes "sha") worlds.bare worlds.both_runs worlds.after }
    ensures pending { IsPending (run_setup (upping two.shop) two.loses_create)
        worlds.waiting_moves 2 (CreateSlot 0) }
    ensures waits { IsOnce two.shop 0 two.web (codes "sha") 0
        (run_setup (upping two.shop) two.loses_create) worlds.waiting_moves worlds.waiting }
    ensures stands { IsOnce two.shop 0 two.web (codes "sha") 1
        (run_setup (upping two.shop) two.connects) worlds.second_moves worlds.after }
{}

/// The run that takes one service down, whose container runs, has all that the law on `down` asks for, and so all that
/// is declared is gone.
pub fn one_service_is_gone()
    ensures whole { IsWhole shop }
    ensures run { IsRun (downing shop) goes_down }
    ensures sound { run_fault (downing shop) goes_down ≡ None }
    ensures world { IsWorldOfRun (downing shop) goes_down down.before down.moves down.after }
    ensures gone { IsGone shop down.after (downing shop).aim.orphans (downing shop).aim.volumes }
{
    second_run_and_down();
}

/// The hand of that run pauses before the stop, and meanwhile the container is restarted by itself. The law on what a
/// hand tells gives a world of the run that ends with the hand's Engine.
pub fn paused_run_has_a_world()
    ensures run { IsRun (downing shop) goes_down }
    ensures exchanges { exchanges_in down.steps ≡ run_exchanges (downing shop) goes_down 0 }
    ensures told { TellsSteps down.steps (Some down.before) (Some down.after) }
    ensures world { (moves : List Move)
        × IsWorldOfRun (downing shop) goes_down down.before moves down.after }
{
    second_run_and_down();
}
