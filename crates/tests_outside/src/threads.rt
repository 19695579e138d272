//! Hands that share an Engine in memory, each in a thread of its own.

ghost use Rattle.std.specs.Prelude.{◌≡◌, ◌+◌, Some, IfSome};
ghost use Rattle.outside_api.specs.Clock.{new_clock};

use engine_plugs::MainPlug;
use engine_types::{ContainerSpec, Outcome, Reply, Request};
use memory_engine::MemoryEngine;
use outside_api::{DialAnswer, Hand, Plug, Target};
use shared_hand::SharedPlug;
use std::alloc::Global;
use std::test::Fail;
use std::thread;
use tree_base::{Boxed, Memory, Text};

/// How long each hand pauses, in milliseconds.
const PAUSE: u32 = 250;

fn pull(alloc: Global) -> Result<Request, Memory> {
    let name = Text::from_str(alloc, "nginx")?;
    Ok(Request::Pull { name })
}

fn create(alloc: Global, name: &str) -> Result<Request, Memory> {
    let mut spec = ContainerSpec::empty(alloc);
    spec.image = Some(Text::from_str(alloc, "nginx")?);
    let spec = Boxed::new(alloc, spec)?;
    let name = Text::from_str(alloc, name)?;
    Ok(Request::Create { name, spec })
}

/// What comes of an exchange, in a word.
fn word_of(outcome: Outcome) -> &'static str {
    let word = match &outcome {
        Outcome::Answered(Reply::Pulled) => "pulled",
        Outcome::Answered(Reply::Made(_)) => "made",
        Outcome::Answered(Reply::Refused { status: 409, .. }) => "its name is used",
        _ => "another outcome",
    };
    drop(outcome);
    word
}

/// Pulls an image with a hand, creates a container, and pauses.
fn work<H: Hand>(
    alloc: Global,
    mut hand: H,
    name: &str,
) -> Result<(&'static str, &'static str), Memory>
    requires { H.clock hand ≡ new_clock }
{
    let pull = pull(alloc)?;
    let create = create(alloc, name)?;
    let first = word_of(hand.exchange(alloc, pull));
    let second = word_of(hand.exchange(alloc, create));
    hand.pause(PAUSE);
    Ok((first, second))
}

/// The hand of the worker with a number, where the plug made those of the workers before.
fn hand_of<P: Plug>(alloc: Global, plug: &mut P, number: u32) -> Option<P::Hand>
    requires { P.dialled plug.old ≡ Some number }
    ensures dialled { IfSome result (λ _. P.dialled plug.new ≡ Some (number + 1)) }
    ensures clock { IfSome result (λ hand. P.Hand.clock hand ≡ new_clock) }
{
    match plug.dial(alloc, &Target::InMemory, None, number) {
        DialAnswer::Dialled(hand) => Some(hand),
        DialAnswer::Failed | DialAnswer::Memory => None,
    }
}

#[test]
fn two_threads_speak_with_one_engine(rt: HostRuntime) -> Result<(), Fail> {
    let alloc = rt.alloc();
    let mut engine = MemoryEngine::fresh(alloc)?;
    engine.faults.asked_from = Some(4);
    let mut plug = SharedPlug::new(alloc, &rt, engine, 3)?;
    let one = hand_of(alloc, &mut plug, 0).expect(&rt, "a first hand");
    let two = hand_of(alloc, &mut plug, 1).expect(&rt, "a second hand");
    let mut three = hand_of(alloc, &mut plug, 2).expect(&rt, "a third hand");
    assert!(rt; hand_of(alloc, &mut plug, 3).is_none(), "and no more");
    assert!(rt; !three.asked(), "before the exchanges");
    let (first, second) = thread::join(
        &rt,
        move || work(alloc, one, "web"),
        move || work(alloc, two, "db"),
    );
    assert_eq!(rt; first?, ("pulled", "made"));
    assert_eq!(rt; second?, ("pulled", "made"));
    assert!(rt; three.asked(), "after them");
    assert_eq!(rt; three.now(), 2 * u64::from(PAUSE));
    let Err(plug) = plug.into_engine() else {
        panic!(rt; "a hand is left");
    };
    drop(three);
    let Ok(engine) = plug.into_engine() else {
        panic!(rt; "no hand is left");
    };
    assert_eq!(rt; engine.made, 4);
    assert_eq!(rt; engine.engine.containers.len(), 2);
    assert!(rt; is_named(&engine, "web"));
    assert!(rt; is_named(&engine, "db"));
    Ok(())
}

#[test]
fn hands_of_the_program_share_their_engine_in_memory(rt: HostRuntime) -> Result<(), Fail> {
    let alloc = rt.alloc();
    let mut plug = MainPlug::new(&rt, &rt, None, None);
    let one = hand_of(alloc, &mut plug, 0).expect(&rt, "a first hand");
    let two = hand_of(alloc, &mut plug, 1).expect(&rt, "a second hand");
    let (first, second) = thread::join(
        &rt,
        move || work(alloc, one, "web"),
        move || work(alloc, two, "web"),
    );
    let (_, first) = first?;
    let (_, second) = second?;
    assert!(rt; first == "made" || second == "made", "one container");
    assert!(rt;
        first == "its name is used" || second == "its name is used",
        "and no more"
    );
    Ok(())
}

/// Whether a container has this name.
fn is_named(engine: &MemoryEngine, name: &str) -> bool {
    engine
        .engine
        .containers
        .as_slice()
        .iter()
        .any(|row| row.name.as_str() == name)
}
