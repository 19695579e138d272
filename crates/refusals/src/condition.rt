ghost use Rattle.std.specs.Prelude.{◌≡◌, ◌++◌, IfOk, codes};
ghost use Rattle.run_model.specs.Lines.{condition_words, fault_words, health_words, report_words, state_words};
ghost use Rattle.engine_types.specs.declared.RunFault.{RunFault};

use crate::line::before_text;
use engine_types::{Condition, ContainerState, Health, Report};
use std::alloc::Global;
use tree_base::{Memory, Text};

/// The words of a condition that failed: the container, the condition and the report that shows it.
pub(crate) fn failed_words(
    alloc: Global,
    slot: &Text,
    condition: Condition,
    report: &Report,
) -> Result<Text, Memory>
    ensures { IfOk result (λ words.
        words ≡ fault_words (RunFault.Condition slot.now condition report.now)) }
{
    let words = shown_words(alloc, slot, condition, report)?;
    before_text(alloc, "condition failed: ", &words)
}

fn shown_words(
    alloc: Global,
    slot: &Text,
    condition: Condition,
    report: &Report,
) -> Result<Text, Memory>
    ensures { IfOk result (λ words. words
        ≡ slot.now ++ codes " " ++ condition_words condition
        ++ codes " " ++ report_words report.now) }
{
    let condition = condition_words(condition);
    let report = report_words(alloc, report)?;
    let words = format!(in alloc; "{slot} {condition} {report}")?;
    Ok(Text::from_string(words))
}

fn report_words(alloc: Global, report: &Report) -> Result<Text, Memory>
    ensures { IfOk result (λ words. words ≡ report_words report.now) }
{
    let state = state_words(report.state);
    let code = &report.exit_code;
    let health = health_words(report.health);
    let words = format!(in alloc; "{state} {code} {health}")?;
    Ok(Text::from_string(words))
}

fn condition_words(condition: Condition) -> &'static str
    ensures { result.now ≡ condition_words condition }
{
    match condition {
        Condition::Started => "Started",
        Condition::Healthy => "Healthy",
        Condition::Completed => "Completed",
        Condition::Running => "Running",
    }
}

fn state_words(state: ContainerState) -> &'static str
    ensures { result.now ≡ state_words state }
{
    match state {
        ContainerState::Created => "Created",
        ContainerState::Running => "Running",
        ContainerState::Paused => "Paused",
        ContainerState::Restarting => "Restarting",
        ContainerState::Removing => "Removing",
        ContainerState::Exited => "Exited",
        ContainerState::Dead => "Dead",
    }
}

fn health_words(health: Health) -> &'static str
    ensures { result.now ≡ health_words health }
{
    match health {
        Health::Absent => "Absent",
        Health::Starting => "Starting",
        Health::Healthy => "Healthy",
        Health::Unhealthy => "Unhealthy",
    }
}
