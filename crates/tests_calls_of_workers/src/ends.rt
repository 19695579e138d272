//! What comes of calls.

use crate::calls::{Asked, called};
use engine_types::{Outcome, Reply, Request};
use exchange_log::ExchangeLog;
use meeting_hands::{Meeting, MeetingHand, MeetingPlug, use_name};
use memory_engine::MemoryEngine;
use refusals::{Part, Refusal};
use repeated_runs::Attempts;
use std::sync::Wait;
use std::test::Fail;
use std::time::Clock;

/// What came of a call.
#[derive(Clone, Copy)]
pub(crate) struct Ends {
    pub(crate) status: u8,
    /// What it was refused with, in a word.
    pub(crate) why: &'static str,
    /// How many runs were made before the last one.
    pub(crate) earlier: usize,
    /// How many entries the journal of the last run has.
    pub(crate) entries: usize,
    /// How many hands came back.
    pub(crate) hands: usize,
    /// Whether one of them made an exchange.
    pub(crate) has_sent: bool,
    /// How many listings of containers the hand made that looked behind the last run; None where none looked, or made another exchange.
    pub(crate) looks: Option<usize>,
    /// Whether all hands met, and none waited in vain.
    pub(crate) is_whole: bool,
    /// How many exchanges the Engine answered.
    pub(crate) exchanges: u64,
    /// How many containers it has.
    pub(crate) containers: usize,
    /// Whether the container of the first service runs, and that of the second.
    pub(crate) run: (bool, bool),
}

pub(crate) fn ends_of<'r, R: Wait + Sync + Clock>(
    attempts: &Attempts<MeetingHand<'r, R>>,
    plug: &MeetingPlug<'r, R>,
) -> Ends {
    Ends {
        status: attempts.last.status,
        why: why_of(&attempts.last.refusal),
        earlier: attempts.earlier.len(),
        entries: attempts.last.journal.len(),
        hands: attempts.last.hands.len(),
        has_sent: has_sent(attempts.last.hands.as_slice()),
        looks: looks_of(&attempts.looker),
        is_whole: plug.was_whole(),
        exchanges: plug.exchange_count(),
        containers: plug.container_count(),
        run: (plug.runs("shop-a-1"), plug.runs("shop-b-1")),
    }
}

fn has_sent<R>(hands: &[MeetingHand<'_, R>]) -> bool {
    for hand in hands {
        if !hand.log().is_empty() {
            return true;
        }
    }
    false
}

fn looks_of<R>(looker: &Option<MeetingHand<'_, R>>) -> Option<usize> {
    match looker {
        Some(hand) => listings(hand.log()),
        None => None,
    }
}

fn listings(log: &ExchangeLog) -> Option<usize> {
    let (whole, looks) = log.parts();
    if !looks.is_empty() {
        return None;
    }
    for exchange in whole {
        if !matches!(&exchange.request, Request::ListContainers { .. }) {
            return None;
        }
    }
    Some(whole.len())
}

fn why_of(refusal: &Option<Refusal>) -> &'static str {
    match refusal {
        None => "nothing",
        Some(Refusal::Request { outcome, .. }) if is_conflict(outcome) => "a name is used",
        Some(Refusal::Stopped) => "stopped",
        Some(Refusal::Outside(Part::Plug)) => "a dial failed",
        Some(_) => "otherwise",
    }
}

/// Whether an exchange was refused because a name is used.
fn is_conflict(outcome: &Outcome) -> bool {
    match outcome {
        Outcome::Answered(Reply::Refused { status, .. }) => *status == 409,
        _ => false,
    }
}

/// Services without networks, of which none needs another one.
const TWO: Asked = Asked {
    text: "name: shop
services:
  a: {image: x, network_mode: none}
  b: {image: x, network_mode: none}
",
    workers: "2",
};

const FOUR: Asked = Asked {
    text: "name: shop
services:
  a: {image: x, network_mode: none}
  b: {image: x, network_mode: none}
  c: {image: x, network_mode: none}
  d: {image: x, network_mode: none}
",
    workers: "4",
};

/// Each hand waits in its first create for the creates of all the others to begin.
#[test]
fn four_workers_of_a_call_create_at_the_same_time(rt: HostRuntime) -> Result<(), Fail> {
    let alloc = rt.alloc();
    let engine = MemoryEngine::fresh(alloc)?;
    let ends = called(alloc, &rt, FOUR, engine, 4, Meeting::new(4, None))?;
    assert_eq!(rt; ends.status, 0);
    assert!(rt; ends.is_whole, "no hand waited in vain");
    assert_eq!(rt; ends.containers, 4);
    Ok(())
}

/// The second worker is asked to stop once its create is done, while the first is in its own.
#[test]
fn a_worker_that_is_asked_to_stop_lets_the_other_end_its_create(
    rt: HostRuntime,
) -> Result<(), Fail> {
    let alloc = rt.alloc();
    let engine = MemoryEngine::fresh(alloc)?;
    let ends = called(alloc, &rt, TWO, engine, 2, Meeting::new(2, Some(1)))?;
    assert!(rt; ends.is_whole, "no hand waited in vain");
    assert_eq!(rt; ends.status, 5);
    assert_eq!(rt; ends.why, "stopped");
    assert_eq!(rt; ends.containers, 2);
    assert!(rt; !ends.run.0);
    assert!(rt; !ends.run.1);
    Ok(())
}

/// The name of one container is used, which is of no project: its create is refused while the other worker is in its own, which goes on
/// to its start. A third hand looks eight times for a container of the project, and none comes. So the run isn't made again, and
/// its refusal stands.
#[test]
fn a_create_that_is_refused_lets_the_other_worker_go_on(rt: HostRuntime) -> Result<(), Fail> {
    let alloc = rt.alloc();
    let mut engine = MemoryEngine::fresh(alloc)?;
    use_name(alloc, &mut engine, "shop-b-1")?;
    let ends = called(alloc, &rt, TWO, engine, 3, Meeting::new(2, None))?;
    assert!(rt; ends.is_whole, "no hand waited in vain");
    assert_eq!(rt; ends.status, 3);
    assert_eq!(rt; ends.why, "a name is used");
    assert_eq!(rt; ends.earlier, 0);
    assert_eq!(rt; ends.looks, Some(8));
    assert!(rt; ends.run.0);
    assert!(rt; !ends.run.1);
    Ok(())
}

/// The same where no third hand can be made to look.
#[test]
fn a_create_that_is_refused_stands_where_no_hand_looks(rt: HostRuntime) -> Result<(), Fail> {
    let alloc = rt.alloc();
    let mut engine = MemoryEngine::fresh(alloc)?;
    use_name(alloc, &mut engine, "shop-b-1")?;
    let ends = called(alloc, &rt, TWO, engine, 2, Meeting::new(2, None))?;
    assert!(rt; ends.is_whole, "no hand waited in vain");
    assert_eq!(rt; ends.status, 3);
    assert_eq!(rt; ends.why, "a name is used");
    assert_eq!(rt; ends.looks, None);
    assert!(rt; ends.run.0);
    assert!(rt; !ends.run.1);
    Ok(())
}

/// The plug makes two of four hands: the call ends there, and gives the two back as they were made.
#[test]
fn nothing_is_sent_where_the_third_dial_fails(rt: HostRuntime) -> Result<(), Fail> {
    let alloc = rt.alloc();
    let engine = MemoryEngine::fresh(alloc)?;
    let ends = called(alloc, &rt, FOUR, engine, 2, Meeting::new(4, None))?;
    assert_eq!(rt; ends.status, 7);
    assert_eq!(rt; ends.why, "a dial failed");
    assert_eq!(rt; ends.entries, 0);
    assert_eq!(rt; ends.hands, 2);
    assert!(rt; !ends.has_sent);
    assert_eq!(rt; ends.exchanges, 0);
    Ok(())
}
