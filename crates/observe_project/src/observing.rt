ghost use Rattle.std.specs.Prelude.{◌≡◌, None};
ghost use Rattle.engine_types.specs.declared.SeenEnd.{SeenEnd};
ghost use Rattle.run_model.specs.Logs.{GrowsBy};
ghost use Rattle.run_model.specs.Observation.{IsObservation, after_judging, ending, judging, observed};
ghost use Rattle.outside_api.specs.Accounts.{AreCaused, account};
ghost use Rattle.observe_project.specs.Exchanges.{HasCauseOfEnd};
ghost use Rattle.run_model.specs.EngineRules.{ToldBy};
ghost use Rattle.observe_project.specs.Reading.{end_of};
ghost use Rattle.outside_api.specs.Standings.{standing};
ghost use Rattle.observe_project.specs.Steps.{Steps};

use crate::fetching::see_images;
use crate::judging::judge;
use crate::listing::list_all;
use engine_types::{Declared, Exchange, Observed, Purpose, Seen, SeenEnd, SeenFault};
use outside_api::Hand;
use std::alloc::Global;
use tree_base::ReservedList;

/// Observes what an Engine has of a project: the containers with the project's label (of several rows with one id the
/// first alone); the networks and the volumes where the project declares any; and for `up` the id of each image,
/// in byte order of the images. An image is pulled by the Compose Specification's `pull_policy` of its services:
/// always, or where it is missing and none of its services is to be built, or never.
///
/// The end is bad at the first request that isn't answered as asked (RequestFailed, PullFailed, Lost, NotSent); where
/// a declared network is there twice (with the two least ids), is another project's, or an external network or
/// volume is missing for `up`; where a missing image is to be built; and for want of memory. Room for an
/// exchange is taken before it is made, so every exchange that was made is in the list. Each of them has its cause in
/// itself, and where the end tells of a lost response or of a request that wasn't sent, what was heard last is what
/// was heard of that request.
pub fn observe<H: Hand>(
    alloc: Global,
    hand: &mut H,
    declared: &Declared,
    purpose: Purpose,
) -> Observed
    ensures observed { IsObservation declared.now purpose result }
    ensures log { GrowsBy result.exchanges (H.log hand.old) (H.log hand.new) }
    ensures told { ToldBy result.exchanges (H.engine hand.old) (H.engine hand.new) }
    ensures caused { AreCaused result.exchanges
        (account (H.log hand.old) (H.heard hand.old) (H.faults hand.old))
        (account (H.log hand.new) (H.heard hand.new) (H.faults hand.new)) }
    ensures cause { HasCauseOfEnd (H.heard hand.new) (H.faults hand.old)
        (H.faults hand.new) result.end }
    ensures clock { H.clock hand.new ≡ H.clock hand.old }
{
    let mut exchanges = ReservedList::new(alloc);
    let seen = see(alloc, hand, declared, purpose, &mut exchanges);
    Observed {
        exchanges: exchanges.into_list(),
        end: end_of(seen),
    }
}

fn end_of(seen: Result<Seen, SeenFault>) -> SeenEnd
    ensures { result ≡ end_of seen }
{
    match seen {
        Ok(seen) => SeenEnd::Good(seen),
        Err(fault) => SeenEnd::Bad(fault),
    }
}

fn see<H: Hand>(
    alloc: Global,
    hand: &mut H,
    declared: &Declared,
    purpose: Purpose,
    exchanges: &mut ReservedList<Exchange>,
) -> Result<Seen, SeenFault>
    ensures { Steps (observed declared.now purpose)
        (λ seen. ending (SeenEnd.Good seen)) result exchanges.old.items exchanges.new.items
        (standing (H.log hand.old) (H.engine hand.old) (H.heard hand.old)
        (H.faults hand.old) (H.clock hand.old))
        (standing (H.log hand.new) (H.engine hand.new) (H.heard hand.new)
        (H.faults hand.new) (H.clock hand.new)) }
{
    let listed = list_all(alloc, hand, declared, exchanges)?;
    look(alloc, hand, declared, purpose, listed, exchanges)
}

/// Judges what was listed, and for `up` looks at the images.
fn look<H: Hand>(
    alloc: Global,
    hand: &mut H,
    declared: &Declared,
    purpose: Purpose,
    listed: Seen,
    exchanges: &mut ReservedList<Exchange>,
) -> Result<Seen, SeenFault>
    ensures { Steps (judging declared.now purpose listed)
        (λ seen. ending (SeenEnd.Good seen)) result exchanges.old.items exchanges.new.items
        (standing (H.log hand.old) (H.engine hand.old) (H.heard hand.old)
        (H.faults hand.old) (H.clock hand.old))
        (standing (H.log hand.new) (H.engine hand.new) (H.heard hand.new)
        (H.faults hand.new) (H.clock hand.new)) }
{
    let seen = judge(alloc, declared, purpose, listed)?;
    look_at_images(alloc, hand, declared, purpose, seen, exchanges)
}

fn look_at_images<H: Hand>(
    alloc: Global,
    hand: &mut H,
    declared: &Declared,
    purpose: Purpose,
    seen: Seen,
    exchanges: &mut ReservedList<Exchange>,
) -> Result<Seen, SeenFault>
    ensures { Steps (after_judging declared.now purpose seen None)
        (λ seen. ending (SeenEnd.Good seen)) result exchanges.old.items exchanges.new.items
        (standing (H.log hand.old) (H.engine hand.old) (H.heard hand.old)
        (H.faults hand.old) (H.clock hand.old))
        (standing (H.log hand.new) (H.engine hand.new) (H.heard hand.new)
        (H.faults hand.new) (H.clock hand.new)) }
{
    match purpose {
        Purpose::Up => see_images(alloc, hand, declared, seen, exchanges),
        Purpose::Down => Ok(seen),
    }
}
