use case_files::{Fields, Line, Lines, Reading};
use engine_types::{Action, ActionKind, Plan};
use std::alloc::Global;
use std::str::SplitWhitespace;
use tree_base::List;

/// The plan of the lines under a key, each an action with the numbers that it needs: `volume 0`, `network 0`, `stop 1`,
/// `remove 1 <0`, `create 0 <1`, `connect 0.1 <2`, `stop-kept 0 <1`, `start 0 <2 <3`, `no-network 0`, `no-volume 0`.
/// It tells no kept containers.
pub fn plan_of(reading: &mut Reading, fields: &Fields, key: &str) -> Plan {
    let alloc = reading.alloc;
    let mut actions = List::new(alloc);
    for tree in reading.items(fields, key) {
        let line = reading.text_of(tree, key);
        let action = action(reading, line.as_str());
        reading.push(&mut actions, action);
    }
    Plan {
        actions,
        kept: List::new(alloc),
    }
}

fn action(reading: &mut Reading, line: &str) -> Action {
    let mut words = line.split_whitespace();
    let verb = words.next().unwrap_or("");
    let number = words.next().unwrap_or("");
    Action {
        kind: kind_of(reading, verb, number),
        needs: needs_of(reading, words),
    }
}

fn kind_of(reading: &mut Reading, verb: &str, word: &str) -> ActionKind {
    let (first, second) = word.split_once('.').unwrap_or((word, "0"));
    let number = reading.place("a place", first);
    let attach = reading.place("a place", second);
    match verb {
        "volume" => ActionKind::MakeVolume { volume: number },
        "network" => ActionKind::MakeNetwork { network: number },
        "stop" => ActionKind::StopContainer {
            container: u64::from(number),
        },
        "remove" => ActionKind::RemoveContainer {
            container: u64::from(number),
        },
        "create" => ActionKind::CreateSlot { slot: number },
        "connect" => ActionKind::ConnectSlot {
            slot: number,
            attach,
        },
        "stop-kept" => ActionKind::StopKept { slot: number },
        "start" => ActionKind::StartSlot { slot: number },
        "no-network" => ActionKind::RemoveNetwork { network: number },
        "no-volume" => ActionKind::RemoveVolume { volume: number },
        _ => {
            reading.refuse_word("an action", verb);
            ActionKind::StartSlot { slot: number }
        }
    }
}

fn needs_of(reading: &mut Reading, words: SplitWhitespace<'_>) -> List<u32> {
    let mut needs = List::new(reading.alloc);
    for word in words {
        let need = reading.place("a place", word.strip_prefix("<").unwrap_or(word));
        reading.push(&mut needs, need);
    }
    needs
}

/// The word for an action, its number, and that of the attach.
fn words_of(kind: ActionKind) -> (&'static str, u64, Option<u32>) {
    match kind {
        ActionKind::MakeVolume { volume } => ("volume", u64::from(volume), None),
        ActionKind::MakeNetwork { network } => ("network", u64::from(network), None),
        ActionKind::StopContainer { container } => ("stop", container, None),
        ActionKind::RemoveContainer { container } => ("remove", container, None),
        ActionKind::CreateSlot { slot } => ("create", u64::from(slot), None),
        ActionKind::ConnectSlot { slot, attach } => ("connect", u64::from(slot), Some(attach)),
        ActionKind::StopKept { slot } => ("stop-kept", u64::from(slot), None),
        ActionKind::StartSlot { slot } => ("start", u64::from(slot), None),
        ActionKind::RemoveNetwork { network } => ("no-network", u64::from(network), None),
        ActionKind::RemoveVolume { volume } => ("no-volume", u64::from(volume), None),
    }
}

/// The lines of a plan, as `plan_of` reads them.
pub fn plan_lines(alloc: Global, plan: &Plan) -> Lines {
    let mut lines = Lines::new(alloc);
    for action in plan.actions.as_slice() {
        lines.push(action_line(alloc, action));
    }
    lines
}

/// The line of an action with the numbers that it needs.
fn action_line(alloc: Global, action: &Action) -> Line {
    let mut line = Line::new(alloc);
    let (word, number, attach) = words_of(action.kind);
    line.word(word);
    line.number(number);
    if let Some(attach) = attach {
        line.put(".");
        line.put_number(u64::from(attach));
    }
    say_needs(&mut line, action.needs.as_slice());
    line
}

fn say_needs(line: &mut Line, needs: &[u32]) {
    for need in needs {
        line.word("<");
        line.put_number(u64::from(*need));
    }
}
