ghost use Rattle.std.specs.Prelude.{◌≡◌, ◌<◌, ◌++◌, ◌∷◌, [], IfOk, OnOk};
ghost use Rattle.outside_api.specs.Standings.{standing};
ghost use Rattle.observe_project.specs.Steps.{Asked};

use engine_types::{Exchange, Request, SeenFault};
use outside_api::Hand;
use std::alloc::Global;
use tree_base::{Memory, ReservedList, TryCopy};

/// Sends a request. Room for its exchange is taken before, so that an exchange that was made is kept.
pub(crate) fn ask<H: Hand>(
    alloc: Global,
    hand: &mut H,
    request: Request,
    exchanges: &mut ReservedList<Exchange>,
) -> Result<Exchange, SeenFault>
    ensures same { exchanges.new.items ≡ exchanges.old.items }
    ensures room { OnOk result (0 < exchanges.new.spare) }
    ensures asked { Asked request result
        (standing (H.log hand.old) (H.engine hand.old) (H.heard hand.old)
        (H.faults hand.old) (H.clock hand.old))
        (standing (H.log hand.new) (H.engine hand.new) (H.heard hand.new)
        (H.faults hand.new) (H.clock hand.new)) }
{
    match kept_copy(alloc, &request, exchanges) {
        Ok(kept) => {
            let outcome = hand.exchange(alloc, request);
            Ok(Exchange {
                request: kept,
                outcome,
            })
        }
        Err(_) => {
            drop(request);
            Err(SeenFault::Memory)
        }
    }
}

/// Takes room for an exchange, and copies its request.
fn kept_copy(
    alloc: Global,
    request: &Request,
    exchanges: &mut ReservedList<Exchange>,
) -> Result<Request, Memory>
    ensures same { exchanges.new.items ≡ exchanges.old.items }
    ensures room { OnOk result (0 < exchanges.new.spare) }
    ensures copied { IfOk result (λ kept. kept ≡ request.now) }
{
    exchanges.reserve(1)?;
    request.copy(alloc)
}

/// Keeps an exchange, for which there is room.
pub(crate) fn keep(exchanges: &mut ReservedList<Exchange>, exchange: Exchange)
    requires { 0 < exchanges.old.spare }
    ensures { exchanges.new.items ≡ exchanges.old.items ++ exchange ∷ [] }
{
    let _ = exchanges.push(exchange);
}
