//! The plug of the program, and that of a peer that doesn't answer.

ghost use Rattle.std.specs.Prelude.{◌<◌, ◌^◌};
ghost use Rattle.std.specs.Option.{ForSome};

use crate::sockets::own_path;
use engine_hand::SilentPlug;
use engine_plugs::MainPlug;
use engine_types::{Outcome, Request, WireEnd};
use outside_api::{DialAnswer, Hand, Plug, Target};
use std::alloc::Global;
use std::fs;
use std::test::Fail;
use tree_base::Text;

fn word_of(outcome: &Outcome) -> &'static str {
    match outcome {
        Outcome::Answered(_) => "answered",
        Outcome::Lost(WireEnd::Ended) => "ended",
        Outcome::Lost(_) => "lost",
        Outcome::NotSent => "not sent",
        Outcome::Memory => "memory",
    }
}

/// What comes of listing volumes with the first hand for a target, in a word.
fn outcome_at<P: Plug>(alloc: Global, plug: &mut P, target: &Target) -> &'static str
    requires { ForSome (P.dialled plug.old) (λ n. n < 2 ^ 62) }
{
    match plug.dial(alloc, target, None, 0) {
        DialAnswer::Dialled(mut hand) => {
            let outcome = hand.exchange(alloc, Request::ListVolumes);
            drop(hand);
            let word = word_of(&outcome);
            drop(outcome);
            word
        }
        DialAnswer::Failed => "no hand",
        DialAnswer::Memory => "no memory for a hand",
    }
}

#[test]
fn the_hands_of_the_program_speak_with_their_targets(rt: HostRuntime) -> Result<(), Fail> {
    let alloc = rt.alloc();
    let nowhere = Text::from_str(alloc, "/no such folder/engine.sock")?;
    let outcome = outcome_at(
        alloc,
        &mut MainPlug::new(&rt, &rt, None, None),
        &Target::Socket(nowhere),
    );
    assert_eq!(rt; outcome, "not sent");
    let outcome = outcome_at(
        alloc,
        &mut MainPlug::new(&rt, &rt, None, None),
        &Target::InMemory,
    );
    assert_eq!(rt; outcome, "answered");
    Ok(())
}

#[test]
fn the_plug_of_the_program_opens_streams_to_a_door(rt: HostRuntime) -> Result<(), Fail> {
    let alloc = rt.alloc();
    let path = own_path(&rt, "compose-plug")?;
    let target = Target::Socket(path.copy(alloc)?);
    let mut plug = MainPlug::new(&rt, &rt, None, None);
    let before = matches!(plug.stream(alloc, &target), DialAnswer::Failed);
    let door = plug.door(alloc, &path);
    let beside = matches!(plug.door(alloc, &path), DialAnswer::Failed);
    let stream = plug.stream(alloc, &target);
    let in_memory = matches!(plug.stream(alloc, &Target::InMemory), DialAnswer::Failed);
    fs::remove_file(&rt, path.as_str())?;
    assert!(rt; before, "where no socket is");
    assert!(rt; matches!(door, DialAnswer::Dialled(_)));
    assert!(rt; beside, "where a door is open");
    assert!(rt; matches!(stream, DialAnswer::Dialled(_)));
    assert!(rt; in_memory, "an Engine in memory has no stream");
    Ok(())
}

#[test]
fn a_silent_peer_ends_the_connection(rt: HostRuntime) {
    let outcome = outcome_at(
        rt.alloc(),
        &mut SilentPlug::new(rt.alloc()),
        &Target::InMemory,
    );
    assert_eq!(rt; outcome, "ended");
}
