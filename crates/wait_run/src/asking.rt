ghost use Rattle.std.specs.Prelude.{◌≡◌};
ghost use Rattle.outside_api.specs.Standings.{standing};
ghost use Rattle.wait_run.specs.Asking.{Asked};

use engine_types::{Exchange, Request};
use outside_api::Hand;
use std::alloc::Global;
use tree_base::{Memory, TryCopy};

/// Sends a request, a copy of which is kept.
pub(crate) fn ask<H: Hand>(
    alloc: Global,
    hand: &mut H,
    request: Request,
) -> Result<Exchange, Memory>
    ensures { Asked request result
        (standing (H.log hand.old) (H.engine hand.old) (H.heard hand.old)
        (H.faults hand.old) (H.clock hand.old))
        (standing (H.log hand.new) (H.engine hand.new) (H.heard hand.new)
        (H.faults hand.new) (H.clock hand.new)) }
{
    match request.copy(alloc) {
        Ok(kept) => {
            let outcome = hand.exchange(alloc, request);
            Ok(Exchange {
                request: kept,
                outcome,
            })
        }
        Err(memory) => {
            drop(request);
            Err(memory)
        }
    }
}
