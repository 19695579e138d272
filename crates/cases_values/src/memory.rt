use crate::engine::engine_of;
use case_files::{Fields, Reading};
use cases_messages::{code_of, health_of};
use engine_holding::engine_that_holds;
use memory_engine::{Catalogue, Change, FaultPlan, LostAt, MemoryEngine, Tick};
use tree_base::{List, Text};

/// An Engine in memory: what it holds, as `engine_of` reads it; `catalogue`, the names of the images that can be
/// pulled (absent: all); `script`, each tick as `NAME exits CODE` or `NAME HEALTH`; and what goes wrong with its
/// exchanges, which count from 1: `lost`, each as `4 before` or `4 after` its effect, `unsent`, and `asked_from`. None,
/// which is kept, where `engine_that_holds` refuses what it is to hold.
pub fn memory_engine_of(
    reading: &mut Reading,
    fields: &Fields,
    project: &Text,
) -> Option<MemoryEngine> {
    let engine = engine_of(reading, fields, project);
    let script = script_of(reading, fields);
    let faults = faults_of(reading, fields);
    let catalogue = catalogue_of(reading, fields);
    let held = engine_that_holds(engine, script, faults, catalogue);
    if held.is_none() {
        reading.refuse("an Engine in memory can't hold this");
    }
    held
}

fn catalogue_of(reading: &mut Reading, fields: &Fields) -> Catalogue {
    if fields.has("catalogue") {
        Catalogue::Only(reading.texts(fields, "catalogue"))
    } else {
        Catalogue::All
    }
}

fn script_of(reading: &mut Reading, fields: &Fields) -> List<Tick> {
    let mut ticks = List::new(reading.alloc);
    for tree in reading.items(fields, "script") {
        let words = reading.text_of(tree, "script");
        let tick = tick_of(reading, words.as_str());
        reading.push(&mut ticks, tick);
    }
    ticks
}

/// A tick of words.
pub(crate) fn tick_of(reading: &mut Reading, words: &str) -> Tick {
    let mut words = words.split_whitespace();
    let container = reading.text(words.next().unwrap_or(""));
    let change = match words.next() {
        Some("exits") => Change::Exit(code_of(reading, words.next().unwrap_or(""))),
        health => Change::Health(health_of(reading, health.unwrap_or(""))),
    };
    Tick { container, change }
}

fn faults_of(reading: &mut Reading, fields: &Fields) -> FaultPlan {
    FaultPlan {
        lost: lost_of(reading, fields),
        unsent: reading.numbers(fields, "unsent"),
        asked_from: asked_from(reading, fields),
    }
}

fn lost_of(reading: &mut Reading, fields: &Fields) -> List<LostAt> {
    let mut lost = List::new(reading.alloc);
    for tree in reading.items(fields, "lost") {
        let words = reading.text_of(tree, "lost");
        let at = lost_at(reading, words.as_str());
        reading.push(&mut lost, at);
    }
    lost
}

fn lost_at(reading: &mut Reading, words: &str) -> LostAt {
    let (number, when) = words.split_once(' ').unwrap_or((words, ""));
    let exchange = reading.number(number);
    let effect = match when {
        "after" => true,
        "before" => false,
        _ => {
            reading.refuse_word("`before` or `after`", when);
            false
        }
    };
    LostAt { exchange, effect }
}

fn asked_from(reading: &mut Reading, fields: &Fields) -> Option<u64> {
    if fields.has("asked_from") {
        Some(reading.number_or(fields, "asked_from", 0))
    } else {
        None
    }
}
