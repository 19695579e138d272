ghost use Rattle.std.specs.Prelude.{◌≡◌};
ghost use Rattle.name_conflicts.specs.Conflicts.{is_conflict, is_create, is_same_create, makes_container, makes_network, makes_volume};

use engine_types::{Outcome, Reply, Request};
use tree_base::Text;

/// The status with which the Engine refuses to create what there is by that name.
const CONFLICT: u16 = 409;

/// Whether a request makes a container, a network or a volume. No memory.
pub fn is_create(request: &Request) -> bool
    ensures { result ≡ is_create request.now }
{
    matches!(
        request,
        Request::Create { .. } | Request::MakeNetwork { .. } | Request::MakeVolume { .. }
    )
}

/// Whether the Engine refused since there is something by that name. No memory.
pub fn is_conflict(outcome: &Outcome) -> bool
    ensures { result ≡ is_conflict outcome.now }
{
    match outcome {
        Outcome::Answered(Reply::Refused { status, .. }) => *status == CONFLICT,
        _ => false,
    }
}

/// Whether both requests make one thing: a container, a network or a volume of one name. No memory.
pub fn is_same_create(request: &Request, other: &Request) -> bool
    ensures { result ≡ is_same_create request.now other.now }
{
    match request {
        Request::Create { name, .. } => makes_container(name, other),
        Request::MakeNetwork { spec } => makes_network(&spec.name, other),
        Request::MakeVolume { spec } => makes_volume(&spec.name, other),
        _ => false,
    }
}

fn makes_container(name: &Text, request: &Request) -> bool
    ensures { result ≡ makes_container name.now request.now }
{
    match request {
        Request::Create { name: other, .. } => *name == *other,
        _ => false,
    }
}

fn makes_network(name: &Text, request: &Request) -> bool
    ensures { result ≡ makes_network name.now request.now }
{
    match request {
        Request::MakeNetwork { spec } => *name == spec.name,
        _ => false,
    }
}

fn makes_volume(name: &Text, request: &Request) -> bool
    ensures { result ≡ makes_volume name.now request.now }
{
    match request {
        Request::MakeVolume { spec } => *name == spec.name,
        _ => false,
    }
}
