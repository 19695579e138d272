ghost use Rattle.std.specs.Prelude.{◌≡◌};
ghost use Rattle.std.specs.Option.{option_copied};
ghost use Rattle.run_model.specs.Conditions.{judge, judge_completion, judge_health, judge_running, report_of};

use engine_types::{Condition, ContainerState, Health, Outcome, Reply, Report};
use run_model::Verdict;

/// What a report on a slot's container says of a condition: it is met, it has failed, or neither yet. Started is met by
/// every report. No memory.
pub fn judge(condition: Condition, report: &Report) -> Verdict
    ensures { result ≡ judge condition report.now }
{
    match condition {
        Condition::Started => Verdict::Met,
        Condition::Healthy => judge_health(report.state, report.health),
        Condition::Completed => judge_completion(report.state, report.exit_code),
        Condition::Running => judge_running(report.state, report.health),
    }
}

/// A running and healthy container meets `service_healthy`. One that is unhealthy, runs without a health check, has exited,
/// is dead or is being removed fails it.
fn judge_health(state: ContainerState, health: Health) -> Verdict
    ensures { result ≡ judge_health state health }
{
    match (state, health) {
        (ContainerState::Running, Health::Healthy) => Verdict::Met,
        (ContainerState::Running, Health::Absent) => Verdict::Failed,
        (ContainerState::Exited, _) => Verdict::Failed,
        (ContainerState::Dead, _) => Verdict::Failed,
        (ContainerState::Removing, _) => Verdict::Failed,
        (_, Health::Unhealthy) => Verdict::Failed,
        _ => Verdict::NotYet,
    }
}

/// An exit with code 0 meets `service_completed_successfully`. An exit with another code, a dead container, and one that is
/// being removed fail it.
fn judge_completion(state: ContainerState, exit_code: i64) -> Verdict
    ensures { result ≡ judge_completion state exit_code }
{
    match state {
        ContainerState::Exited => {
            if exit_code == 0 {
                Verdict::Met
            } else {
                Verdict::Failed
            }
        }
        ContainerState::Dead | ContainerState::Removing => Verdict::Failed,
        _ => Verdict::NotYet,
    }
}

/// A running container that has no health check, or is healthy, meets Running. One that is unhealthy, has exited, is dead or is
/// being removed fails it; so one whose image has a health check is waited for while that is starting.
fn judge_running(state: ContainerState, health: Health) -> Verdict
    ensures { result ≡ judge_running state health }
{
    match (state, health) {
        (ContainerState::Running, Health::Absent) => Verdict::Met,
        (ContainerState::Running, Health::Healthy) => Verdict::Met,
        (ContainerState::Exited, _) => Verdict::Failed,
        (ContainerState::Dead, _) => Verdict::Failed,
        (ContainerState::Removing, _) => Verdict::Failed,
        (_, Health::Unhealthy) => Verdict::Failed,
        _ => Verdict::NotYet,
    }
}

/// The report that a poll was answered with, if any. No memory.
pub fn report_of(outcome: &Outcome) -> Option<&Report>
    ensures { option_copied result ≡ report_of outcome.now }
{
    match outcome {
        Outcome::Answered(reply) => match reply {
            Reply::State(report) => Some(report),
            _ => None,
        },
        _ => None,
    }
}
