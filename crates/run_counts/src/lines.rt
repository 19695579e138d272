ghost use Rattle.std.specs.Prelude.{◌≡◌, ◌++◌, IfOk, OnOk};
ghost use Rattle.run_counts.specs.Lines.{head_lines, last_lines, run_line, simulated_text};

use crate::counts::RunCounts;
use std::alloc::Global;
use tree_base::{Memory, Text};

/// What is counted of four runs, one after another, of a project of so many services: each run; how many containers were to be made
/// over all of them; and how many the Engine holds at the end.
#[derive(Clone, Copy)]
pub struct Simulated {
    pub number: u32,
    pub first: RunCounts,
    pub second: RunCounts,
    pub third: RunCounts,
    pub last: RunCounts,
    pub creates: usize,
    pub containers: usize,
}

/// The eight lines that `simulate` prints.
pub fn simulated_text(alloc: Global, simulated: &Simulated) -> Result<Text, Memory>
    ensures { IfOk result (λ text. text ≡ simulated_text simulated.now) }
{
    let mut text = head_text(alloc, simulated.number)?;
    push_run(alloc, &mut text, 1, &simulated.first)?;
    push_run(alloc, &mut text, 2, &simulated.second)?;
    push_run(alloc, &mut text, 3, &simulated.third)?;
    push_run(alloc, &mut text, 4, &simulated.last)?;
    push_last(alloc, &mut text, simulated.creates, simulated.containers)?;
    Ok(text)
}

/// The lines of the command and of its services.
#[tactic(auto, unfolding(crate::specs::Lines::head_lines))]
fn head_text(alloc: Global, number: u32) -> Result<Text, Memory>
    ensures { IfOk result (λ text. text ≡ head_lines number) }
{
    let lines = format!(in alloc; "simulate {number}\nservices {number}\n")?;
    Ok(Text::from_string(lines))
}

/// Puts the line of a run last.
#[tactic(auto, unfolding(crate::specs::Lines::run_line))]
fn push_run(alloc: Global, text: &mut Text, place: u32, run: &RunCounts) -> Result<(), Memory>
    ensures { OnOk result (text.new ≡ text.old ++ run_line place run.now) }
{
    let status = run.status;
    let sent = run.sent;
    let answered = run.answered;
    let line = format!(in alloc; "run {place} status {status} sent {sent} answered {answered}\n")?;
    text.push_str(line.as_str())
}

/// Puts the lines of what was made over all runs last.
#[tactic(auto, unfolding(crate::specs::Lines::last_lines))]
fn push_last(
    alloc: Global,
    text: &mut Text,
    creates: usize,
    containers: usize,
) -> Result<(), Memory>
    ensures { OnOk result (text.new ≡ text.old ++ last_lines creates containers) }
{
    let lines = format!(in alloc; "creates {creates}\ncontainers {containers}\n")?;
    text.push_str(lines.as_str())
}
