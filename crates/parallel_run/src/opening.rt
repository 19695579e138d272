ghost use Rattle.std.specs.Prelude.{◌≡◌, ◌<◌, ◌≤◌, All, length};
ghost use Rattle.ledger_run.specs.Tellings.{telling};
ghost use Rattle.outside_api.specs.Clock.{new_clock};
ghost use Rattle.parallel_run.specs.Together.{OpensWith, first_reading};
ghost use Rattle.project_run.specs.Options.{AreFor, limits_in};
ghost use Rattle.run_model.specs.Plans.{IsWhole};
ghost use Rattle.tree_base.specs.Limits.{most_workers};

use engine_types::{Aim, Declared, RunLimits, RunOptions};
use outside_api::Hand;
use project_run::{Opening, limits_for, open};
use std::alloc::Global;
use tree_base::List;

/// A run of several workers that has begun: its hands, what bounds it, and how it opened.
#[derive(Drop)]
pub(crate) struct Begun<H: Hand> {
    pub hands: List<H>,
    pub bounds: RunLimits,
    pub opening: Opening,
}

/// Reads hand 0's clock where there is a deadline, observes with this hand, and plans.
pub(crate) fn open_with<H: Hand>(
    alloc: Global,
    hands: List<H>,
    declared: &Declared,
    aim: Aim,
    options: RunOptions,
    given: Option<RunLimits>,
) -> Begun<H>
    requires some { 0 < length hands }
    requires few { length hands ≤ most_workers }
    requires whole { IsWhole declared.now }
    requires unused { All (λ h. H.clock h ≡ new_clock) hands }
    requires given { AreFor (length hands) given }
    ensures bounds { result.bounds ≡ limits_in (length hands) options given
        (first_reading (λ h. H.clock h) result.hands) }
    ensures opens { OpensWith
        (λ h. telling (H.log h) (H.heard h) (H.faults h) (H.clock h) (H.engine h))
        declared.now aim result.bounds result.opening hands result.hands }
{
    let mut hands = hands.into_vec();
    let (bounds, opening) = open_first(alloc, hands.as_mut_slice(), declared, aim, options, given);
    Begun {
        hands: List::from_vec(hands),
        bounds,
        opening,
    }
}

/// The same with the hands in their place: what bounds the run, and how it opened.
fn open_first<H: Hand>(
    alloc: Global,
    hands: &mut [H],
    declared: &Declared,
    aim: Aim,
    options: RunOptions,
    given: Option<RunLimits>,
) -> (RunLimits, Opening)
    requires some { 0 < length hands.old }
    requires few { length hands.old ≤ most_workers }
    requires whole { IsWhole declared.now }
    requires unused { All (λ h. H.clock h ≡ new_clock) hands.old }
    requires given { AreFor (length hands.old) given }
    ensures bounds { result.0 ≡ limits_in (length hands.old) options given
        (first_reading (λ h. H.clock h) hands.new) }
    ensures opens { OpensWith
        (λ h. telling (H.log h) (H.heard h) (H.faults h) (H.clock h) (H.engine h))
        declared.now aim result.0 result.1 hands.old hands.new }
{
    let workers = hands.len() as u32;
    let first = &mut hands[0];
    let bounds = limits_for(first, workers, options, given);
    let opening = open(alloc, first, declared, aim);
    (bounds, opening)
}
