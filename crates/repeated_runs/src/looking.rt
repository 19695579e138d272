ghost use Rattle.std.specs.Prelude.{◌+◌, ◌<◌, ◌^◌};
ghost use Rattle.std.specs.Option.{ForSome};
ghost use Rattle.ledger_run.specs.Tellings.{telling};
ghost use Rattle.repeated_runs.specs.Dials.{IsDialHere};
ghost use Rattle.repeated_runs.specs.Lookings.{Looks};

use crate::dialling::{DialFault, dial};
use compose_cli::Place;
use engine_types::Request;
use name_conflicts::{LookEnd, look_for};
use outside_api::Plug;
use std::alloc::Global;
use tree_base::Text;

/// What came of looking whether what a create would make is there.
#[derive(Drop)]
pub(crate) enum Looked<H> {
    /// A hand looked, and that ended so.
    By { hand: H, end: LookEnd },
    /// The plug failed to make a hand.
    Undialled,
    /// Memory was wanted for a hand.
    Short,
}

/// Looks whether what a create would make is there, with a new hand, dialled as worker 0's, at the place of a run.
pub(crate) fn look_behind<P: Plug>(
    alloc: Global,
    place: &Place,
    project: &Text,
    request: &Request,
    deadline: Option<u64>,
    plug: &mut P,
) -> Looked<P::Hand>
    requires { ForSome (P.dialled plug.old) (λ n. n < 2 ^ 61 + 2 ^ 60) }
    ensures { Looks
        (λ h. telling (P.Hand.log h) (P.Hand.heard h) (P.Hand.faults h) (P.Hand.clock h)
        (P.Hand.engine h)) (IsDialHere place.now) project.now request.now deadline result
        (P.dials plug.old) (P.dials plug.new) (P.dialled plug.old) (P.dialled plug.new)
        (P.faults plug.old) (P.faults plug.new) }
{
    match dial(alloc, place, 0, plug) {
        Ok(hand) => {
            let mut hand = hand;
            let end = look_for(alloc, &mut hand, project, request, deadline);
            Looked::By { hand, end }
        }
        Err(fault) => match fault {
            DialFault::Plug => Looked::Undialled,
            DialFault::Memory => Looked::Short,
        },
    }
}
