ghost use Rattle.std.specs.Prelude.{◌≡◌, ◌<◌, ◌^◌, Some};
ghost use Rattle.outside_api.specs.Clock.{new_clock};

use crate::dials::put_dials;
use crate::engines::{engine_at, request_in};
use case_files::{Answers, Fields, Line, Lines, Reading};
use cases_messages::exchange_lines;
use engine_hand::{MemoryHand, MemoryPlug};
use outside_api::{DialAnswer, Hand, MemoryClock, Plug, Target};
use std::alloc::Global;
use tree_base::Tree;

/// A hand in memory whose clock was never used.
#[derive(Drop)]
struct UnusedHand {
    hand: MemoryHand,
    ghost unused: { ⟦<MemoryHand as Hand>⟧.clock hand ≡ new_clock },
}

/// Makes exchanges with a hand, pauses it, and asks it: `exchanges` has what was exchanged, `now` its time after
/// the pause, and `asked` whether it was asked to stop.
pub fn hand(fields: &Fields, answers: &mut Answers) {
    let pause = answers.reading.number_or(fields, "pause", 0);
    if let Some(engine) = engine_at(&mut answers.reading, fields) {
        let mut unused = UnusedHand {
            hand: MemoryHand::new(answers.reading.alloc, engine),
        };
        exchange_each(&mut answers.reading, fields, &mut unused);
        put_hand(unused, pause, answers);
    }
}

fn exchange_each(reading: &mut Reading, fields: &Fields, unused: &mut UnusedHand) {
    for tree in reading.items(fields, "hand") {
        let request = request_in(reading, tree, "hand");
        let outcome = unused.hand.exchange(reading.alloc, request);
        drop(outcome);
    }
}

fn put_hand(unused: UnusedHand, pause: u64, answers: &mut Answers) {
    let UnusedHand { mut hand } = unused;
    hand.pause(u32::try_from(pause).unwrap_or(u32::MAX));
    answers.put_number("now", hand.now());
    answers.put_flag("asked", hand.asked());
    answers.put_lines(
        "exchanges",
        exchange_lines(answers.reading.alloc, hand.log()),
    );
    drop(hand);
}

/// How often a clock may be used, so that what it counts stays small.
const USES: u64 = 1 << 60;

/// Uses a clock: each step of `clock` is `{pause: MILLISECONDS}`, `now`, or `{look: ANSWER}`. `times` has the readings, and
/// `readings`, `first`, `last`, `paused`, `looks` and `yeses` what the clock counted.
pub fn clock(fields: &Fields, answers: &mut Answers) {
    let mut clock = MemoryClock::new();
    let times = use_each(&mut answers.reading, fields, &mut clock);
    answers.put_lines("times", times);
    put_counts(&clock, answers);
}

fn use_each(reading: &mut Reading, fields: &Fields, clock: &mut MemoryClock) -> Lines {
    let mut times = Lines::new(reading.alloc);
    for tree in reading.items(fields, "clock") {
        match reading.word(tree) {
            Some("now") => read(reading.alloc, clock, &mut times),
            _ => step(reading, tree, clock),
        }
    }
    times
}

fn read(alloc: Global, clock: &mut MemoryClock, times: &mut Lines) {
    if clock.counts.readings < USES {
        let mut line = Line::new(alloc);
        line.number(clock.now());
        times.push(line);
    }
}

fn step(reading: &mut Reading, tree: &Tree, clock: &mut MemoryClock) {
    if let Some(fields) = reading.fields_of(tree, "clock") {
        if fields.has("look") {
            look(reading.flag(&fields, "look"), clock);
        } else {
            pause_clock(reading.small_at(&fields, "pause"), clock);
        }
    }
}

fn look(answer: bool, clock: &mut MemoryClock) {
    if clock.counts.looks < USES {
        clock.look(answer);
    }
}

fn pause_clock(ms: u32, clock: &mut MemoryClock) {
    if clock.counts.paused < USES {
        clock.pause(ms);
    }
}

fn put_counts(clock: &MemoryClock, answers: &mut Answers) {
    answers.put_number("readings", clock.counts.readings);
    answers.put_number("first", clock.counts.first);
    answers.put_number("last", clock.counts.last);
    answers.put_number("paused", clock.counts.paused);
    answers.put_number("looks", clock.counts.looks);
    answers.put_number("yeses", clock.counts.yeses);
}

/// Dials a plug for one hand twice: `first` and `second` say whether that made a hand, and `dials` what it was asked for.
pub fn plug(fields: &Fields, answers: &mut Answers) {
    if answers.reading.number_at(fields, "plug") != 1 {
        answers.reading.wants("plug", "one hand");
    } else if let Some(engine) = engine_at(&mut answers.reading, fields) {
        let mut plug = MemoryPlug::new(answers.reading.alloc, engine, 1);
        dial_twice(&mut plug, answers);
        put_dials(plug.dials(), answers);
        drop(plug);
    }
}

fn dial_twice(plug: &mut MemoryPlug, answers: &mut Answers)
    requires { ⟦<MemoryPlug as Plug>⟧.dialled plug.old ≡ Some 0 }
{
    match plug.dial(answers.reading.alloc, &Target::InMemory, None, 0) {
        DialAnswer::Dialled(hand) => {
            drop(hand);
            let second = is_dialled(answers.reading.alloc, plug, 1);
            put_made(true, second, answers);
        }
        _ => put_made(false, false, answers),
    }
}

/// Dials a plug that made so many hands, and whether that made another one.
fn is_dialled(alloc: Global, plug: &mut MemoryPlug, dialled: u64) -> bool
    requires told { ⟦<MemoryPlug as Plug>⟧.dialled plug.old ≡ Some dialled }
    requires below { dialled < 2 ^ 61 }
{
    match plug.dial(alloc, &Target::InMemory, None, 1) {
        DialAnswer::Dialled(hand) => {
            drop(hand);
            true
        }
        _ => false,
    }
}

fn put_made(first: bool, second: bool, answers: &mut Answers) {
    answers.put_flag("first", first);
    answers.put_flag("second", second);
}
