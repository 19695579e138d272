ghost use Rattle.std.specs.Prelude.{◌≡◌};
ghost use Rattle.outside_api.specs.Clock.{new_clock};

use crate::ending::put_fault;
use crate::planning::{aim_of, declared_at};
use crate::serving::memory_at;
use crate::whole::is_serial;
use case_files::{Answers, Fields, Reading};
use cases_messages::exchange_lines;
use cases_values::{engine_lines, journal_lines};
use engine_hand::MemoryHand;
use engine_types::{Aim, Declared, RunOptions};
use outside_api::Hand;
use project_run::{Ran, run_project};
use std::alloc::Global;
use world_laws::exact;

/// A run of `up` or `down` of one worker for what is declared, on an Engine in memory, within the limits that its options set: its
/// `journal`, the `exchanges` of its hand, its `report`, its `status` and the line of its `fault`, what the Engine holds `after` it,
/// and whether that is `exact`.
pub(crate) fn run(fields: &Fields, answers: &mut Answers) {
    let declared = declared_at(&mut answers.reading, fields);
    if let Some(memory) = memory_at(&mut answers.reading, fields, &declared.project) {
        let mut hand = MemoryHand::new(answers.reading.alloc, memory);
        run_on(&mut hand, declared, fields, answers);
        drop(hand);
    } else {
        drop(declared);
    }
}

fn run_on(hand: &mut MemoryHand, declared: Declared, fields: &Fields, answers: &mut Answers)
    requires { ⟦<MemoryHand as Hand>⟧.clock hand.old ≡ new_clock }
{
    let aim = aim_of(&mut answers.reading, fields, "run");
    let options = options_of(&mut answers.reading, fields);
    match run_with(answers.reading.alloc, hand, declared, aim, options) {
        Some(ran) => {
            put_ran(ran, answers);
            put_hand(hand, fields, aim, answers);
        }
        None => answers.refuse("the declared set is not whole, or something in it waits"),
    }
}

/// What bounds a run: `wait`, `wait_seconds` and `stop_seconds`.
fn options_of(reading: &mut Reading, fields: &Fields) -> RunOptions {
    RunOptions {
        wait: reading.flag(fields, "wait"),
        wait_seconds: seconds_of(reading, fields, "wait_seconds"),
        stop_seconds: seconds_of(reading, fields, "stop_seconds"),
    }
}

fn seconds_of(reading: &mut Reading, fields: &Fields, key: &str) -> Option<u32> {
    match fields.find(key) {
        Some(_) => Some(reading.small_at(fields, key)),
        None => None,
    }
}

/// The run, where the declared set is one that a single worker can carry out.
fn run_with(
    alloc: Global,
    hand: &mut MemoryHand,
    declared: Declared,
    aim: Aim,
    options: RunOptions,
) -> Option<Ran>
    requires { ⟦<MemoryHand as Hand>⟧.clock hand.old ≡ new_clock }
{
    if is_serial(&declared) {
        Some(run_project(alloc, hand, declared, aim, options))
    } else {
        drop(declared);
        None
    }
}

fn put_ran(ran: Ran, answers: &mut Answers) {
    let Ran {
        journal,
        report,
        fault,
    } = ran;
    answers.put_lines(
        "journal",
        journal_lines(answers.reading.alloc, journal.as_slice()),
    );
    answers.put_text("report", report.as_str());
    put_fault(fault, answers);
}

fn put_hand(hand: &MemoryHand, fields: &Fields, aim: Aim, answers: &mut Answers) {
    let declared = declared_at(&mut answers.reading, fields);
    let alloc = answers.reading.alloc;
    let engine = &hand.engine.engine;
    answers.put_lines("exchanges", exchange_lines(alloc, hand.log()));
    answers.put_lines("after", engine_lines(alloc, engine));
    answers.put_told("exact", exact(alloc, &declared, engine, aim.orphans));
    drop(declared);
}
