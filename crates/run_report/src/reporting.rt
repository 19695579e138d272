ghost use Rattle.std.specs.Prelude.{◌≡◌, ◌+◌, ◌<◌, ◌++◌, [], Some, IfOk, OnOk, length, reverse, take, if◌then◌else◌};
ghost use Rattle.run_model.specs.Journals.{Work, ended_as, holding, is_well};
ghost use Rattle.run_model.specs.Lines.{done_words, ended_line, line, report_text};
ghost use Rattle.run_requests.specs.Setups.{setup_of};
ghost use Rattle.run_report.specs.Reports.{entry_line};

use crate::actions::kind_of;
use crate::held::{Held, earlier, held_after};
use crate::lines::done_line;
use engine_types::{ActionKind, Entry, Outcome};
use run_lookups::is_well;
use run_requests::Run;
use std::alloc::Global;
use tree_base::{Memory, Text};

/// A run's report, by its journal from the oldest entry on: a line for each action that ended well, in the order
/// of their ends.
pub fn report(alloc: Global, run: &Run<'_>, journal: &[Entry]) -> Result<Text, Memory>
    ensures { IfOk result (λ text. text ≡ report_text (setup_of run.now) (reverse journal.now)) }
{
    let mut text = Text::new(alloc);
    for at in 0..journal.len() {
        push_at(alloc, &mut text, run, journal, at)?;
    }
    Ok(text)
}

/// Puts the line of the entry at a place last: a report of the entries before it becomes one of it too.
fn push_at(
    alloc: Global,
    text: &mut Text,
    run: &Run<'_>,
    journal: &[Entry],
    at: usize,
) -> Result<(), Memory>
    requires { at < length journal.now }
    ensures { OnOk result (text.old ≡ report_text (setup_of run.now) (reverse (take at journal.now))
        → text.new ≡ report_text (setup_of run.now) (reverse (take (at + 1) journal.now))) }
{
    push_entry(alloc, text, run, earlier(journal, at), &journal[at])
}

/// Puts the line of an entry last, which comes after these.
fn push_entry(
    alloc: Global,
    text: &mut Text,
    run: &Run<'_>,
    past: &[Entry],
    entry: &Entry,
) -> Result<(), Memory>
    ensures { OnOk result (text.new ≡
        text.old ++ entry_line (setup_of run.now) (reverse past.now) entry.now) }
{
    let line = entry_line(alloc, run, past, entry)?;
    text.push_str(line.as_str())
}

fn entry_line(alloc: Global, run: &Run<'_>, past: &[Entry], entry: &Entry) -> Result<Text, Memory>
    ensures { IfOk result (λ text.
        text ≡ entry_line (setup_of run.now) (reverse past.now) entry.now) }
{
    match entry {
        Entry::Ended { worker, outcome } => end_line(alloc, run, past, *worker, outcome),
        _ => Ok(Text::new(alloc)),
    }
}

/// The line of a worker's end: it ends what it held after these entries.
fn end_line(
    alloc: Global,
    run: &Run<'_>,
    past: &[Entry],
    worker: u32,
    outcome: &Outcome,
) -> Result<Text, Memory>
    ensures { IfOk result (λ text.
        text ≡ ended_line (setup_of run.now) outcome.now (holding (reverse past.now) worker)) }
{
    match held_after(past, worker) {
        Held::Work(action) => ended_line(alloc, run, action, outcome),
        Held::Nothing | Held::Watch(_) => Ok(Text::new(alloc)),
    }
}

/// The line of an action's end: there is one where it ended well.
fn ended_line(alloc: Global, run: &Run<'_>, action: u32, outcome: &Outcome) -> Result<Text, Memory>
    ensures { IfOk result (λ text. text ≡ ended_line (setup_of run.now) outcome.now (Work action)) }
{
    match kind_of(run.plan, action as usize) {
        Some(kind) => line_of(alloc, run, kind, outcome),
        None => Ok(Text::new(alloc)),
    }
}

fn line_of(
    alloc: Global,
    run: &Run<'_>,
    kind: ActionKind,
    outcome: &Outcome,
) -> Result<Text, Memory>
    ensures { IfOk result (λ text.
        text ≡ (if is_well (ended_as (Some kind) outcome.now) then line
        (done_words (setup_of run.now) kind) else [])) }
{
    if is_well(kind, outcome) {
        done_line(alloc, run, kind)
    } else {
        Ok(Text::new(alloc))
    }
}
