use case_files::{Fields, Line, Lines, Reading};
use cases_messages::{read_outcome, say_outcome};
use engine_types::{Entry, LateWhy, Observed, Outcome, Seen, SeenEnd, Sighting};
use std::alloc::Global;
use tree_base::{List, Memory};

/// The entries of a journal, oldest first, by the lines under a key: `seen` (of nothing), `claim ACTION`, `poll SLOT`,
/// `ended OUTCOME`, `idle`, `leave`, `stop`, `late entries`, `late CLOCK`, `short`. A line of another worker than 0
/// begins with its number, as `1 claim 3`.
pub fn journal_of(reading: &mut Reading, fields: &Fields, key: &str) -> List<Entry> {
    let mut journal = List::new(reading.alloc);
    for tree in reading.items(fields, key) {
        let line = reading.text_of(tree, key);
        let entry = worker_entry(reading, line.as_str());
        reading.push(&mut journal, entry);
    }
    journal
}

/// The entry of a line, of worker 0 where it names no other.
fn worker_entry(reading: &mut Reading, line: &str) -> Entry {
    let (worker, words) = worker_and_words(line).unwrap_or((0, line));
    entry(reading, worker, words)
}

/// The worker that a line names, and the words behind it; None where it names none.
fn worker_and_words(line: &str) -> Option<(u32, &str)> {
    let (number, words) = line.split_once(' ')?;
    match number.parse::<u32>() {
        Ok(worker) => Some((worker, words)),
        Err(_) => None,
    }
}

fn entry(reading: &mut Reading, worker: u32, line: &str) -> Entry {
    let (verb, rest) = line.split_once(' ').unwrap_or((line, ""));
    match verb {
        "seen" => seen_entry(reading, worker),
        "claim" => Entry::Claim {
            worker,
            action: reading.place("a number", rest),
        },
        "poll" => Entry::Poll {
            worker,
            slot: reading.place("a number", rest),
        },
        "ended" => Entry::Ended {
            worker,
            outcome: read_outcome(reading, rest),
        },
        "idle" => Entry::Idle { worker },
        "leave" => Entry::Leave { worker },
        "stop" => Entry::Stop { worker },
        "late" => Entry::Late {
            worker,
            why: late_why(reading, rest),
        },
        "short" => Entry::Short { worker },
        _ => {
            reading.refuse_word("an entry", verb);
            Entry::Leave { worker }
        }
    }
}

/// What was passed, of a word.
pub(crate) fn late_why(reading: &mut Reading, word: &str) -> LateWhy {
    match word {
        "entries" => LateWhy::Entries,
        _ => LateWhy::Deadline(reading.number(word)),
    }
}

/// The entry of an observation that saw nothing.
fn seen_entry(reading: &mut Reading, worker: u32) -> Entry {
    match Sighting::new(reading.alloc) {
        Ok(place) => Entry::Seen(place.holding(nothing_observed(reading.alloc))),
        Err(Memory) => {
            reading.memory();
            Entry::Leave { worker }
        }
    }
}

/// An observation without exchanges, which saw nothing. No memory.
fn nothing_observed(alloc: Global) -> Observed {
    Observed {
        exchanges: List::new(alloc),
        end: SeenEnd::Good(Seen {
            containers: List::new(alloc),
            networks: List::new(alloc),
            volumes: List::new(alloc),
            images: List::new(alloc),
        }),
    }
}

/// The lines of a journal, as `journal_of` reads them: `seen` of an observation that ended well, `seen badly` of another.
pub fn journal_lines(alloc: Global, journal: &[Entry]) -> Lines {
    let mut lines = Lines::new(alloc);
    for entry in journal {
        let mut line = Line::new(alloc);
        say_entry(&mut line, entry);
        lines.push(line);
    }
    lines
}

fn say_entry(line: &mut Line, entry: &Entry) {
    match entry {
        Entry::Seen(sighting) => say_seen(line, sighting.get()),
        Entry::Claim { worker, action } => say_numbered(line, *worker, "claim", *action),
        Entry::Poll { worker, slot } => say_numbered(line, *worker, "poll", *slot),
        Entry::Ended { worker, outcome } => say_ended(line, *worker, outcome),
        Entry::Idle { worker } => say_verb(line, *worker, "idle"),
        Entry::Leave { worker } => say_verb(line, *worker, "leave"),
        Entry::Stop { worker } => say_verb(line, *worker, "stop"),
        Entry::Late { worker, why } => say_late(line, *worker, *why),
        Entry::Short { worker } => say_verb(line, *worker, "short"),
    }
}

fn say_seen(line: &mut Line, observed: &Observed) {
    match &observed.end {
        SeenEnd::Good(_) => line.word("seen"),
        SeenEnd::Bad(_) => line.word("seen badly"),
    }
}

/// Says a verb, behind the number of its worker where that isn't 0.
fn say_verb(line: &mut Line, worker: u32, verb: &str) {
    if worker != 0 {
        line.number(u64::from(worker));
    }
    line.word(verb);
}

fn say_numbered(line: &mut Line, worker: u32, verb: &str, number: u32) {
    say_verb(line, worker, verb);
    line.number(u64::from(number));
}

fn say_ended(line: &mut Line, worker: u32, outcome: &Outcome) {
    say_verb(line, worker, "ended");
    say_outcome(line, outcome);
}

fn say_late(line: &mut Line, worker: u32, why: LateWhy) {
    say_verb(line, worker, "late");
    match why {
        LateWhy::Entries => line.word("entries"),
        LateWhy::Deadline(clock) => line.number(clock),
    }
}
