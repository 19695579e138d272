ghost use Rattle.std.specs.Prelude.{◌≡◌, Some};
ghost use Rattle.run_model.specs.Journals.{ended_as, is_good, is_well};

use engine_types::{ActionKind, Outcome, Reply};

/// Whether a reply is a good one to the request of an action of this kind. No memory.
pub fn is_good(kind: ActionKind, reply: &Reply) -> bool
    ensures { result ≡ is_good kind reply.now }
{
    match (kind, reply) {
        (ActionKind::MakeVolume { .. }, Reply::Done) => true,
        (ActionKind::MakeNetwork { .. }, Reply::Made(_)) => true,
        (ActionKind::StopContainer { .. }, Reply::Done) => true,
        (ActionKind::StopContainer { .. }, Reply::Already) => true,
        (ActionKind::RemoveContainer { .. }, Reply::Done) => true,
        (ActionKind::CreateSlot { .. }, Reply::Made(_)) => true,
        (ActionKind::ConnectSlot { .. }, Reply::Done) => true,
        (ActionKind::StopKept { .. }, Reply::Done) => true,
        (ActionKind::StopKept { .. }, Reply::Already) => true,
        (ActionKind::StartSlot { .. }, Reply::Done) => true,
        (ActionKind::StartSlot { .. }, Reply::Already) => true,
        (ActionKind::RemoveNetwork { .. }, Reply::Done) => true,
        (ActionKind::RemoveVolume { .. }, Reply::Done) => true,
        _ => false,
    }
}

/// Whether an action of this kind that ended so ended well: a good reply came. No memory.
pub fn is_well(kind: ActionKind, outcome: &Outcome) -> bool
    ensures { result ≡ is_well (ended_as (Some kind) outcome.now) }
{
    match outcome {
        Outcome::Answered(reply) => is_good(kind, reply),
        Outcome::Lost(_) => false,
        Outcome::NotSent => false,
        Outcome::Memory => false,
    }
}
