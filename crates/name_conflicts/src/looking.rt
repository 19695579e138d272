ghost use Rattle.std.specs.Prelude.{◌≡◌, ◌<◌, ◌^◌, length};
ghost use Rattle.name_conflicts.specs.Looks.{HasLooked, IsRound, ReadsOnce, Sends, is_past};
ghost use Rattle.outside_api.specs.Clock.{new_clock};

use crate::listing::{listing_for, look_end};
use crate::look_end::LookEnd;
use engine_types::Request;
use outside_api::Hand;
use std::alloc::Global;
use tree_base::Text;
use tree_base::limits::{BEFORE_LOOK, MOST_LOOKS};

/// Looks with a hand whose clock is new whether what a create would make is there by now: 8 times at most, each time 250
/// milliseconds later, as long as the hand isn't told to stop and the deadline isn't met, where there is one, in milliseconds of the
/// hand's clock. Nothing else is asked than the listing of the project's containers, or of networks or volumes.
pub fn look_for<H: Hand>(
    alloc: Global,
    hand: &mut H,
    project: &Text,
    request: &Request,
    deadline: Option<u64>,
) -> LookEnd
    requires { H.clock hand.old ≡ new_clock }
    ensures { HasLooked project.now request.now deadline result (H.log hand.old)
        (H.log hand.new) (H.clock hand.old) (H.clock hand.new) }
{
    let mut rounds = 0;
    'looking: while rounds < MOST_LOOKS {
        match look_once(alloc, hand, project, request, deadline) {
            Some(end) => return end,
            None => rounds += 1,
        }
    }
    LookEnd::Missed
}

/// One round: how it ends looking; None where looking goes on.
fn look_once<H: Hand>(
    alloc: Global,
    hand: &mut H,
    project: &Text,
    request: &Request,
    deadline: Option<u64>,
) -> Option<LookEnd>
    requires paused { (H.clock hand.old).paused < 2 ^ 62 }
    requires looks { (H.clock hand.old).looks < 2 ^ 62 }
    requires readings { (H.clock hand.old).readings < 2 ^ 62 }
    ensures { IsRound project.now request.now deadline result (H.log hand.old) (H.log hand.new)
        (H.clock hand.old) (H.clock hand.new) }
{
    hand.pause(BEFORE_LOOK as u32);
    let stops = hand.asked();
    if stops {
        return Some(LookEnd::Stopped);
    }
    let is_late = is_late(hand, deadline);
    if is_late {
        return Some(LookEnd::Late);
    }
    look(alloc, hand, project, request)
}

/// Reads the hand's clock where there is a deadline, and tells whether it is met. No memory.
fn is_late<H: Hand>(hand: &mut H, deadline: Option<u64>) -> bool
    requires { (H.clock hand.old).readings < 2 ^ 62 }
    ensures late { result ≡ is_past deadline (H.clock hand.new).last }
    ensures clock { ReadsOnce deadline (length (H.log hand.old)) (H.clock hand.old)
        (H.clock hand.new) }
    ensures log { H.log hand.new ≡ H.log hand.old }
{
    match deadline {
        Some(limit) => {
            let reading = hand.now();
            limit <= reading
        }
        None => false,
    }
}

/// Asks for the listing: how that ends looking; None where looking goes on.
fn look<H: Hand>(alloc: Global, hand: &mut H, project: &Text, request: &Request) -> Option<LookEnd>
    ensures sent { Sends project.now request.now result (H.log hand.old) (H.log hand.new) }
    ensures clock { H.clock hand.new ≡ H.clock hand.old }
{
    let Ok(listing) = listing_for(alloc, project, request) else {
        return Some(LookEnd::Memory);
    };
    let outcome = hand.exchange(alloc, listing);
    let end = look_end(project, request, &outcome);
    // By a call, since the drop of each variant of an outcome would be proved at this place.
    drop(outcome);
    end
}
