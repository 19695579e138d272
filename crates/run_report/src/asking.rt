//! The request of what a worker holds, as it was claimed or polled.

ghost use Rattle.std.specs.Prelude.{◌≡◌, IfOk, Some, option_and_then, option_map, reverse};
ghost use Rattle.run_model.specs.Requests.{OfAction, action_request, asked, poll_request, request_of, request_out, source_of};
ghost use Rattle.run_report.specs.Claims.{before_claim, before_poll};
ghost use Rattle.run_requests.specs.Setups.{setup_of};

use crate::actions::kind_of;
use crate::claims::is_claim_of;
use crate::held::{Held, earlier, held_after};
use crate::ids::Past;
use crate::polls::latest_poll;
use engine_types::{ActionKind, Entry, Request};
use run_requests::{Run, poll_of, request_of};
use std::alloc::Global;
use tree_base::Memory;

/// The request of a worker's latest claim or poll; a listing stands where there is none.
pub(crate) fn request_out(
    alloc: Global,
    run: &Run<'_>,
    past: &[Entry],
    worker: u32,
) -> Result<Request, Memory>
    ensures { IfOk result (λ request.
        request ≡ request_out (setup_of run.now) (reverse past.now) worker) }
{
    match asked_out(alloc, run, past, worker)? {
        Some(request) => Ok(request),
        None => Ok(Request::ListContainers {
            project: run.declared.project.copy(alloc)?,
        }),
    }
}

/// The request of what a worker holds.
fn asked_out(
    alloc: Global,
    run: &Run<'_>,
    past: &[Entry],
    worker: u32,
) -> Result<Option<Request>, Memory>
    ensures { IfOk result (λ request. request ≡ option_and_then
        (asked (setup_of run.now) (reverse past.now)) (source_of (reverse past.now) worker)) }
{
    match held_after(past, worker) {
        Held::Nothing => Ok(None),
        Held::Work(action) => asked_by_claim(alloc, run, past, action),
        Held::Watch(_) => asked_by_poll(alloc, run, past, worker),
    }
}

/// The request of the latest claim of an action, as it was there.
fn asked_by_claim(
    alloc: Global,
    run: &Run<'_>,
    past: &[Entry],
    action: u32,
) -> Result<Option<Request>, Memory>
    ensures { IfOk result (λ request.
        request ≡ asked (setup_of run.now) (reverse past.now) (OfAction action)) }
{
    match before_claim(past, action) {
        Some(before) => action_request(alloc, run, before, action),
        None => Ok(None),
    }
}

/// The entries before the latest claim of an action.
fn before_claim(past: &[Entry], action: u32) -> Option<&[Entry]>
    ensures { option_map (λ before. reverse before.now) result ≡
        before_claim (reverse past.now) action }
{
    let mut at = past.len();
    while at > 0 {
        at -= 1;
        if is_claim_of(&past[at], action as usize) {
            return Some(earlier(past, at));
        }
    }
    None
}

fn action_request(
    alloc: Global,
    run: &Run<'_>,
    past: &[Entry],
    action: u32,
) -> Result<Option<Request>, Memory>
    ensures { IfOk result (λ request.
        request ≡ action_request (setup_of run.now) (reverse past.now) action) }
{
    match kind_of(run.plan, action as usize) {
        Some(kind) => request_after(alloc, run, past, kind),
        None => Ok(None),
    }
}

/// The request of an action of this kind, over the ids that these entries told. None where something that it speaks of
/// isn't there.
fn request_after(
    alloc: Global,
    run: &Run<'_>,
    past: &[Entry],
    kind: ActionKind,
) -> Result<Option<Request>, Memory>
    ensures { IfOk result (λ request.
        request ≡ request_of (setup_of run.now) (reverse past.now) kind) }
{
    let ids = Past { run, entries: past };
    request_of(alloc, run, &ids, kind)
}

/// The request of a worker's latest poll, as it was there.
fn asked_by_poll(
    alloc: Global,
    run: &Run<'_>,
    past: &[Entry],
    worker: u32,
) -> Result<Option<Request>, Memory>
    ensures { IfOk result (λ request. request ≡ option_and_then
        (λ poll. poll_request (setup_of run.now) poll.0 poll.1)
        (before_poll (reverse past.now) worker)) }
{
    match latest_poll(past, worker) {
        Some(poll) => poll_request(alloc, run, poll.before, poll.slot),
        None => Ok(None),
    }
}

/// The request of a poll of a slot after these entries. None where the slot has no container.
fn poll_request(
    alloc: Global,
    run: &Run<'_>,
    past: &[Entry],
    slot: u32,
) -> Result<Option<Request>, Memory>
    ensures { IfOk result (λ request.
        request ≡ poll_request (setup_of run.now) (reverse past.now) slot) }
{
    let ids = Past { run, entries: past };
    poll_of(alloc, &ids, slot)
}
