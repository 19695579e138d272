//! Both workers of a run work at the same time: each hand waits in its first create for the create of the other to begin.

use crate::runs::ran_up;
use meeting_hands::{Meeting, MeetingPlug, use_name};
use memory_engine::MemoryEngine;
use std::test::Fail;

#[test]
fn two_workers_of_a_run_create_at_the_same_time(rt: HostRuntime) -> Result<(), Fail> {
    let alloc = rt.alloc();
    let engine = MemoryEngine::fresh(alloc)?;
    let mut plug = MeetingPlug::new(alloc, &rt, engine, 2, Meeting::new(2, None))?;
    let tally = ran_up(alloc, &rt, &mut plug)?;
    assert_eq!(rt; tally.end, "well");
    assert!(rt; tally.both);
    assert!(rt; plug.was_whole(), "no hand waited in vain");
    Ok(())
}

/// The second worker is asked to stop once its create is done, while the first is in its own: this one is ended, and nothing more is
/// begun, by either.
#[test]
fn a_worker_that_is_asked_to_stop_lets_the_other_end_its_create(
    rt: HostRuntime,
) -> Result<(), Fail> {
    let alloc = rt.alloc();
    let engine = MemoryEngine::fresh(alloc)?;
    let mut plug = MeetingPlug::new(alloc, &rt, engine, 2, Meeting::new(2, Some(1)))?;
    let tally = ran_up(alloc, &rt, &mut plug)?;
    assert!(rt; plug.was_whole(), "no hand waited in vain");
    assert_eq!(rt; tally.end, "stopped");
    assert!(rt; tally.both);
    assert_eq!(rt; tally.counts.stops, 1);
    assert_eq!(rt; tally.counts.late, 0, "begun behind the stop");
    assert_eq!(rt; tally.counts.ends, tally.counts.claims);
    assert_eq!(rt; plug.container_count(), 2);
    Ok(())
}

/// The name of one container is used: its create is refused while the other worker is in its own, which goes on to its start.
#[test]
fn a_create_that_is_refused_lets_the_other_worker_go_on(rt: HostRuntime) -> Result<(), Fail> {
    let alloc = rt.alloc();
    let mut engine = MemoryEngine::fresh(alloc)?;
    use_name(alloc, &mut engine, "shop-web-2")?;
    let mut plug = MeetingPlug::new(alloc, &rt, engine, 2, Meeting::new(2, None))?;
    let tally = ran_up(alloc, &rt, &mut plug)?;
    assert!(rt; plug.was_whole(), "no hand waited in vain");
    assert_eq!(rt; tally.end, "a name is used");
    assert_eq!(rt; tally.counts.claims, 3, "two creates and a start");
    assert_eq!(rt; tally.counts.ends, 3);
    assert!(rt; plug.runs("shop-web-1"));
    assert!(rt; !plug.runs("shop-web-2"));
    Ok(())
}
