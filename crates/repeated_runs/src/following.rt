ghost use Rattle.std.specs.Prelude.{◌≡◌, ◌+◌, ◌<◌, ◌≤◌, ◌^◌, [], ◌∷◌, ◌++◌, None, Some, true};
ghost use Rattle.std.specs.Option.{ForSome, option_copied};
ghost use Rattle.ledger_run.specs.Tellings.{telling};
ghost use Rattle.repeated_runs.specs.Conflicts.{conflict_of, is_refused_of, was_repeated_for};
ghost use Rattle.repeated_runs.specs.declared.following.Behind.{Behind as Followed};
ghost use Rattle.repeated_runs.specs.Dials.{IsDialHere};
ghost use Rattle.repeated_runs.specs.Followings.{EndsLook, Follows, is_sought, shortened};

use crate::attempt::Attempt;
use crate::looking::{Looked, look_behind};
use crate::once::Left;
use compose_cli::{Ended, Place};
use engine_types::Request;
use name_conflicts::{LookEnd, is_conflict, is_create, is_same_create};
use outside_api::Plug;
use refusals::{Refusal, refusal_status};
use std::alloc::Global;
use tree_base::ReservedList;

/// What follows one run of a call.
#[derive(Drop)]
pub(crate) enum Behind<H> {
    /// The run is made again, of this.
    Again(Left),
    /// The call ends so, and with the hand that looked behind the run, where one did.
    Stands { last: Ended<H>, looker: Option<H> },
}

/// Tells what follows a run that ended so, whose report was written whole or not, and of which this is left; behind those that were made
/// again, to which it is added where it is one of them. A hand looks where the run was refused a create whose name is used, its report
/// was written whole, and no run was made again for that yet.
pub(crate) fn behind_run<P: Plug>(
    alloc: Global,
    ended: Ended<P::Hand>,
    whole: bool,
    left: Option<Left>,
    earlier: &mut ReservedList<Attempt<P::Hand>>,
    place: &Place,
    plug: &mut P,
) -> Behind<P::Hand>
    requires told { ForSome (P.dialled plug.old) (λ n. n < 2 ^ 61 + 2 ^ 60) }
    requires lost { left ≡ None → conflict_of ended.refusal ≡ None }
    ensures { Follows
        (λ h. telling (P.Hand.log h) (P.Hand.heard h) (P.Hand.faults h) (P.Hand.clock h)
        (P.Hand.engine h)) (IsDialHere place.now)
        (record { ended = ended; whole = whole; left = left })
        earlier.old.items earlier.new.items result
        (P.dials plug.old) (P.dials plug.new) (P.dialled plug.old) (P.dialled plug.new)
        (P.faults plug.old) (P.faults plug.new) }
{
    match left {
        Some(left) => {
            if whole {
                behind_whole(alloc, ended, left, earlier, place, plug)
            } else {
                drop(left);
                stands(ended, None)
            }
        }
        None => stands(ended, None),
    }
}

/// The same behind a run whose report was written whole.
fn behind_whole<P: Plug>(
    alloc: Global,
    ended: Ended<P::Hand>,
    left: Left,
    earlier: &mut ReservedList<Attempt<P::Hand>>,
    place: &Place,
    plug: &mut P,
) -> Behind<P::Hand>
    requires { ForSome (P.dialled plug.old) (λ n. n < 2 ^ 61 + 2 ^ 60) }
    ensures { Follows
        (λ h. telling (P.Hand.log h) (P.Hand.heard h) (P.Hand.faults h) (P.Hand.clock h)
        (P.Hand.engine h)) (IsDialHere place.now)
        (record { ended = ended; whole = true; left = Some left })
        earlier.old.items earlier.new.items result
        (P.dials plug.old) (P.dials plug.new) (P.dialled plug.old) (P.dialled plug.new)
        (P.faults plug.old) (P.faults plug.new) }
{
    let is_sought = is_sought(&ended.refusal, earlier.as_slice());
    if is_sought {
        behind_sought(alloc, ended, left, earlier, place, plug)
    } else {
        drop(left);
        stands(ended, None)
    }
}

/// The same behind one for which a hand is to look.
fn behind_sought<P: Plug>(
    alloc: Global,
    ended: Ended<P::Hand>,
    left: Left,
    earlier: &mut ReservedList<Attempt<P::Hand>>,
    place: &Place,
    plug: &mut P,
) -> Behind<P::Hand>
    requires told { ForSome (P.dialled plug.old) (λ n. n < 2 ^ 61 + 2 ^ 60) }
    requires sought { is_sought ended.refusal earlier.old.items ≡ true }
    ensures { Follows
        (λ h. telling (P.Hand.log h) (P.Hand.heard h) (P.Hand.faults h) (P.Hand.clock h)
        (P.Hand.engine h)) (IsDialHere place.now)
        (record { ended = ended; whole = true; left = Some left })
        earlier.old.items earlier.new.items result
        (P.dials plug.old) (P.dials plug.new) (P.dialled plug.old) (P.dialled plug.new)
        (P.faults plug.old) (P.faults plug.new) }
{
    match earlier.reserve(1) {
        Ok(()) => behind_look(alloc, ended, left, earlier, place, plug),
        Err(_) => {
            drop(left);
            stands(shortened(ended), None)
        }
    }
}

/// The same with room for one more that is made again.
fn behind_look<P: Plug>(
    alloc: Global,
    ended: Ended<P::Hand>,
    left: Left,
    earlier: &mut ReservedList<Attempt<P::Hand>>,
    place: &Place,
    plug: &mut P,
) -> Behind<P::Hand>
    requires told { ForSome (P.dialled plug.old) (λ n. n < 2 ^ 61 + 2 ^ 60) }
    requires room { 1 ≤ earlier.old.spare }
    requires sought { is_sought ended.refusal earlier.old.items ≡ true }
    ensures { Follows
        (λ h. telling (P.Hand.log h) (P.Hand.heard h) (P.Hand.faults h) (P.Hand.clock h)
        (P.Hand.engine h)) (IsDialHere place.now)
        (record { ended = ended; whole = true; left = Some left })
        earlier.old.items earlier.new.items result
        (P.dials plug.old) (P.dials plug.new) (P.dialled plug.old) (P.dialled plug.new)
        (P.faults plug.old) (P.faults plug.new) }
{
    let Some(request) = conflict(&ended.refusal) else {
        drop(left);
        return stands(ended, None);
    };
    let project = &left.declared.project;
    let deadline = left.limits.deadline;
    match look_behind(alloc, place, project, request, deadline, plug) {
        Looked::By { hand, end } => after_look(ended, left, hand, end, earlier),
        Looked::Undialled => {
            drop(left);
            stands(ended, None)
        }
        Looked::Short => {
            drop(left);
            stands(shortened(ended), None)
        }
    }
}

/// What follows a run behind which this hand looked. No memory.
fn after_look<H: Drop>(
    ended: Ended<H>,
    left: Left,
    hand: H,
    end: LookEnd,
    earlier: &mut ReservedList<Attempt<H>>,
) -> Behind<H>
    requires { 1 ≤ earlier.old.spare }
    ensures { EndsLook ended left hand end earlier.old.items earlier.new.items result }
{
    match end {
        LookEnd::Came => {
            let attempt = Attempt {
                ended,
                looker: hand,
            };
            add(earlier, attempt);
            Behind::Again(left)
        }
        LookEnd::Memory => {
            drop(left);
            stands(shortened(ended), Some(hand))
        }
        LookEnd::Missed => stands_looked(ended, left, hand),
        LookEnd::Stopped => stands_looked(ended, left, hand),
        LookEnd::Late => stands_looked(ended, left, hand),
        LookEnd::Unlisted => stands_looked(ended, left, hand),
    }
}

/// Adds a run that is made again, for which there is room.
fn add<H: Drop>(earlier: &mut ReservedList<Attempt<H>>, attempt: Attempt<H>)
    requires { 1 ≤ earlier.old.spare }
    ensures { earlier.new.items ≡ earlier.old.items ++ attempt ∷ [] }
{
    let _ = earlier.push(attempt);
}

fn stands_looked<H>(ended: Ended<H>, left: Left, hand: H) -> Behind<H>
    ensures { result ≡ Followed.Stands ended (Some hand) }
{
    drop(left);
    Behind::Stands {
        last: ended,
        looker: Some(hand),
    }
}

fn stands<H>(last: Ended<H>, looker: Option<H>) -> Behind<H>
    ensures { result ≡ Followed.Stands last looker }
{
    Behind::Stands { last, looker }
}

/// The same end with a want of memory in place of its refusal.
fn shortened<H>(ended: Ended<H>) -> Ended<H>
    ensures { result ≡ shortened ended }
{
    let Ended {
        status: _,
        journal,
        hands,
        refusal,
    } = ended;
    // By a call, since the drop of each variant of a refusal would be proved at this place.
    drop(refusal);
    Ended {
        status: refusal_status(&Refusal::Memory),
        journal,
        hands,
        refusal: Some(Refusal::Memory),
    }
}

/// Whether behind a run that was refused so something is to be looked for, and no run was made again for it yet. No memory.
fn is_sought<H>(refusal: &Option<Refusal>, earlier: &[Attempt<H>]) -> bool
    ensures { result ≡ is_sought refusal.now earlier.now }
{
    match conflict(refusal) {
        Some(request) => !was_repeated_for(earlier, request),
        None => false,
    }
}

fn was_repeated_for<H>(earlier: &[Attempt<H>], request: &Request) -> bool
    ensures { result ≡ was_repeated_for earlier.now request.now }
{
    earlier
        .iter()
        .any(|attempt| is_refused_of(request, &attempt.ended.refusal))
}

/// Whether a run was refused a create of what a request makes, since its name is used. No memory.
fn is_refused_of(request: &Request, refusal: &Option<Refusal>) -> bool
    ensures { result ≡ is_refused_of request.now refusal.now }
{
    match conflict(refusal) {
        Some(other) => is_same_create(request, other),
        None => false,
    }
}

/// The create that a run was refused since its name is used. No memory.
fn conflict(refusal: &Option<Refusal>) -> Option<&Request>
    ensures { option_copied result ≡ conflict_of refusal.now }
{
    match refusal {
        Some(Refusal::Request { request, outcome }) => {
            if is_create(request) && is_conflict(outcome) {
                Some(request)
            } else {
                None
            }
        }
        _ => None,
    }
}
