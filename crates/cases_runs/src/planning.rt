use case_files::{Answers, Fields, Lines, Reading};
use cases_messages::purpose_of;
use cases_values::{declared_of, plan_lines, seen_of};
use engine_types::{Aim, Declared, Plan, Purpose, Seen, Slot};
use plan_core::{PlanRefusal, plan_down, plan_up};
use run_lookups::kept_of;
use std::alloc::Global;
use tree_base::{List, Memory, Text};

/// The plan of `up` or `down` for what is declared and what was seen: its `actions`, and the ids of the containers that
/// slots keep, `kept` (`none` of a slot that keeps none). Records of several lists are dropped by calls, here and
/// below: a drop in place is proved member by member.
pub(crate) fn plan(fields: &Fields, answers: &mut Answers) {
    let aim = aim_of(&mut answers.reading, fields, "plan");
    let declared = declared_at(&mut answers.reading, fields);
    let seen = seen_at(&mut answers.reading, fields, &declared.project);
    answers.put_lines("kept", kept_ids(answers.reading.alloc, &declared, &seen));
    put_plan(&declared, &seen, aim, answers);
    drop(declared);
    drop(seen);
}

/// What is declared, the empty project where the case doesn't say.
pub(crate) fn declared_at(reading: &mut Reading, fields: &Fields) -> Declared {
    match reading.fields(fields, "declared") {
        Some(fields) => declared_of(reading, &fields),
        None => nothing_declared(reading.alloc),
    }
}

fn nothing_declared(alloc: Global) -> Declared {
    Declared {
        project: Text::new(alloc),
        slots: List::new(alloc),
        services: List::new(alloc),
        networks: List::new(alloc),
        volumes: List::new(alloc),
    }
}

/// What was seen, nothing where the case doesn't say.
pub(crate) fn seen_at(reading: &mut Reading, fields: &Fields, project: &Text) -> Seen {
    match reading.fields(fields, "seen") {
        Some(fields) => seen_of(reading, &fields, project),
        None => nothing_seen(reading.alloc),
    }
}

fn nothing_seen(alloc: Global) -> Seen {
    Seen {
        containers: List::new(alloc),
        networks: List::new(alloc),
        volumes: List::new(alloc),
        images: List::new(alloc),
    }
}

/// What a run is for: the word under a key, with `orphans` and `volumes`.
pub(crate) fn aim_of(reading: &mut Reading, fields: &Fields, key: &str) -> Aim {
    Aim {
        purpose: purpose_at(reading, fields, key),
        orphans: reading.flag(fields, "orphans"),
        volumes: reading.flag(fields, "volumes"),
    }
}

fn purpose_at(reading: &mut Reading, fields: &Fields, key: &str) -> Purpose {
    let word = reading.text_at(fields, key);
    match purpose_of(word.as_str()) {
        Some(purpose) => purpose,
        None => {
            reading.wants(key, "up or down");
            Purpose::Up
        }
    }
}

fn planned(alloc: Global, declared: &Declared, seen: &Seen, aim: Aim) -> Result<Plan, PlanRefusal> {
    match aim.purpose {
        Purpose::Up => plan_up(alloc, declared, seen, aim.orphans),
        Purpose::Down => plan_down(alloc, declared, seen, aim.orphans, aim.volumes),
    }
}

fn put_plan(declared: &Declared, seen: &Seen, aim: Aim, answers: &mut Answers) {
    let alloc = answers.reading.alloc;
    match planned(alloc, declared, seen, aim) {
        Ok(plan) => answers.put_lines("actions", plan_lines(alloc, &plan)),
        Err(PlanRefusal::TooManyActions { count }) => {
            answers.put_printed("refused", format!(in alloc; "too many actions {count}"));
        }
        Err(PlanRefusal::Memory) => answers.reading.memory(),
    }
}

/// The ids of the containers that slots keep.
fn kept_ids(alloc: Global, declared: &Declared, seen: &Seen) -> Lines {
    let mut ids = Lines::new(alloc);
    for slot in declared.slots.as_slice() {
        ids.push_text(kept_id(alloc, declared, seen, slot));
    }
    ids
}

fn kept_id(alloc: Global, declared: &Declared, seen: &Seen, slot: &Slot) -> Result<Text, Memory> {
    match kept_of(alloc, declared, seen, slot)? {
        Some(row) => row.id.copy(alloc),
        None => Text::from_str(alloc, "none"),
    }
}
