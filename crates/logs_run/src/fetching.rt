ghost use Rattle.std.specs.Prelude.{◌≡◌, false, Some, None, IfErr, IfOk};
ghost use Rattle.outside_api.specs.Accounts.{account};
ghost use Rattle.logs_run.specs.Adding.{HasNone, IsFetcher, MayAddTo};
ghost use Rattle.logs_run.specs.Fetching.{bytes_told};
ghost use Rattle.logs_run.specs.Met.{AsksFor, HasFetchedAs, MayFetch, Meets, NotesAs, noted_as};

use crate::adding::add_reply;
use crate::tasks::Task;
use engine_types::{Outcome, Reply, Request};
use log_book::LogBook;
use log_frames::FrameRefusal;
use outside_api::Hand;
use std::alloc::Global;
use std::sync::Wait;
use tree_base::{List, Text, TryCopy};
use turn_ledger::{TurnSeat, Turns};

/// A worker: its seat, its hand, and what it met.
#[derive(Drop)]
pub struct Fetcher<H: Hand> {
    pub seat: TurnSeat<LogBook>,
    pub hand: H,
    pub met: Met,
}

/// What a worker met beside replies that are frames.
#[derive(Drop)]
pub struct Met {
    /// Whether memory was wanted: the worker has ended.
    pub short: bool,
    /// The first slot that is refused.
    pub fault: Option<Fault>,
}

/// A slot that is refused for what came of its request.
#[derive(Drop)]
pub struct Fault {
    pub slot: u32,
    pub reason: Reason,
}

/// Why.
#[derive(Drop)]
pub enum Reason {
    /// What came are no frames from this place on.
    Unframed { at: u64 },
    /// No bytes came.
    Failed { request: Request, outcome: Outcome },
}

/// Asks for the logs of each slot of a worker, in order, and adds their lines to the book, until memory is wanted.
pub(crate) fn fetch_own<R: Wait, H: Hand>(
    alloc: Global,
    rt: &R,
    turns: &Turns<LogBook>,
    fetcher: &mut Fetcher<H>,
    all: &[Task],
    workers: u32,
    number: u32,
)
    requires { MayFetch turns.now fetcher.old.seat fetcher.old.met all.now workers number }
    ensures fetched { HasFetchedAs turns.now all.now workers number fetcher.old.seat
        fetcher.new.seat fetcher.new.met
        (account (H.log fetcher.old.hand) (H.heard fetcher.old.hand) (H.faults fetcher.old.hand))
        (account (H.log fetcher.new.hand) (H.heard fetcher.new.hand)
        (H.faults fetcher.new.hand)) }
    ensures clock { H.clock fetcher.new.hand ≡ H.clock fetcher.old.hand }
{
    for task in all {
        let other = task.slot % workers != number;
        if other {
            continue;
        }
        fetch(alloc, rt, turns, fetcher, task);
        if fetcher.met.short {
            return;
        }
    }
}

/// Asks for the logs of a slot, and adds their lines to the book.
fn fetch<R: Wait, H: Hand>(
    alloc: Global,
    rt: &R,
    turns: &Turns<LogBook>,
    fetcher: &mut Fetcher<H>,
    task: &Task,
)
    requires fetcher { IsFetcher turns.now fetcher.old.seat }
    requires may { MayAddTo turns.now fetcher.old.seat.view task.now.slot }
    requires none { HasNone fetcher.old.seat.view task.now.slot }
    requires going { fetcher.old.met.short ≡ false }
    ensures fetcher { IsFetcher turns.now fetcher.new.seat }
    ensures meets { Meets task.now fetcher.old.met fetcher.new.met fetcher.old.seat.view
        fetcher.new.seat.view
        (account (H.log fetcher.old.hand) (H.heard fetcher.old.hand) (H.faults fetcher.old.hand))
        (account (H.log fetcher.new.hand) (H.heard fetcher.new.hand)
        (H.faults fetcher.new.hand)) }
    ensures clock { H.clock fetcher.new.hand ≡ H.clock fetcher.old.hand }
{
    match ask(alloc, &mut fetcher.hand, &task.id) {
        Ok(bytes) => {
            let seat = &mut fetcher.seat;
            let done = add_reply(alloc, rt, turns, seat, task.slot, bytes.as_slice());
            note(&mut fetcher.met, task.slot, added(done));
        }
        Err(reason) => note(&mut fetcher.met, task.slot, Err(reason)),
    }
}

/// Asks what a container wrote: its bytes, or why there are none; None where memory was wanted.
fn ask<H: Hand>(alloc: Global, hand: &mut H, id: &Text) -> Result<List<u8>, Option<Reason>>
    ensures asks { AsksFor id.now result
        (account (H.log hand.old) (H.heard hand.old) (H.faults hand.old))
        (account (H.log hand.new) (H.heard hand.new) (H.faults hand.new)) }
    ensures clock { H.clock hand.new ≡ H.clock hand.old }
{
    let Ok(sent) = id.copy(alloc) else {
        return Err(None);
    };
    let Ok(kept) = id.copy(alloc) else {
        return Err(None);
    };
    let outcome = hand.exchange(alloc, Request::Logs { id: sent });
    match bytes_in(outcome) {
        Ok(bytes) => Ok(bytes),
        Err(Outcome::Memory) => Err(None),
        Err(other) => Err(Some(Reason::Failed {
            request: Request::Logs { id: kept },
            outcome: other,
        })),
    }
}

/// The bytes that were answered, or the outcome as it is. No memory.
fn bytes_in(outcome: Outcome) -> Result<List<u8>, Outcome>
    ensures bytes { IfOk result (λ bytes. bytes_told outcome ≡ Some bytes) }
    ensures other { IfErr result (λ other. (other ≡ outcome) × (bytes_told outcome ≡ None)) }
{
    match outcome {
        Outcome::Answered(Reply::Bytes(bytes)) => Ok(bytes),
        other => Err(other),
    }
}

/// What adding a reply came to, as it is noted.
fn added(done: Result<(), FrameRefusal>) -> Result<(), Option<Reason>>
    ensures { result ≡ noted_as done }
{
    match done {
        Ok(()) => Ok(()),
        Err(FrameRefusal::BadFrame { at }) => Err(Some(Reason::Unframed { at })),
        Err(FrameRefusal::Memory) => Err(None),
    }
}

/// Notes what a fetch came to: that memory was wanted, or a fault where there is none yet.
fn note(met: &mut Met, slot: u32, done: Result<(), Option<Reason>>)
    ensures { NotesAs slot done met.old met.new }
{
    match done {
        Ok(()) => {}
        Err(None) => met.short = true,
        Err(Some(reason)) => {
            if met.fault.is_none() {
                met.fault = Some(Fault { slot, reason });
            }
        }
    }
}
