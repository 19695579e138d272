ghost use Rattle.std.specs.Prelude.{◌≡◌, IfOk};
ghost use Rattle.run_model.specs.Requests.{action_request, poll_request, request_of};
ghost use Rattle.ledger_requests.specs.Sources.{AreSources, past_in, setup_in};

use crate::sources::Sources;
use engine_types::{ActionKind, Request};
use run_requests::{poll_of, request_of};
use std::alloc::Global;
use tree_base::Memory;

/// The request of an action. None where there is no such action, or something that it speaks of isn't there.
pub fn action_request(
    alloc: Global,
    sources: &Sources<'_>,
    action: u32,
) -> Result<Option<Request>, Memory>
    requires { AreSources sources.now }
    ensures { IfOk result (λ request.
        request ≡ action_request (setup_in sources.now) (past_in sources.now) action) }
{
    match sources.run.plan.actions.get(action as usize) {
        Some(action) => kind_request(alloc, sources, action.kind),
        None => Ok(None),
    }
}

/// The request of an action of this kind.
fn kind_request(
    alloc: Global,
    sources: &Sources<'_>,
    kind: ActionKind,
) -> Result<Option<Request>, Memory>
    requires { AreSources sources.now }
    ensures { IfOk result (λ request.
        request ≡ request_of (setup_in sources.now) (past_in sources.now) kind) }
{
    request_of(alloc, &sources.run, sources, kind)
}

/// The request of a poll: the Engine is asked for the state of the slot's container. None where it has none.
pub fn poll_request(
    alloc: Global,
    sources: &Sources<'_>,
    slot: u32,
) -> Result<Option<Request>, Memory>
    requires { AreSources sources.now }
    ensures { IfOk result (λ request.
        request ≡ poll_request (setup_in sources.now) (past_in sources.now) slot) }
{
    poll_of(alloc, sources, slot)
}
