ghost use Rattle.std.specs.Prelude.{◌≡◌};
ghost use Rattle.slot_rows.specs.Reports.{VerdictsFollowReports, reported, verdict_after};

use crate::slot_row::SlotRow;
use engine_types::{Condition, Outcome};
use health_watch::{judge, report_of};
use run_model::Verdict;

/// A slot's row after the end of its poll: what the report says of each condition, and that no poll is out. A poll that ended
/// without a report fails every condition. No memory.
pub fn reported(row: SlotRow, outcome: &Outcome) -> SlotRow
    ensures { result ≡ reported row outcome.now }
{
    SlotRow {
        counts: row.counts,
        out: false,
        polls: row.polls,
        healthy: verdict_after(Condition::Healthy, outcome, row.healthy),
        completed: verdict_after(Condition::Completed, outcome, row.completed),
        running: verdict_after(Condition::Running, outcome, row.running),
        healthy_askers: row.healthy_askers,
        completed_askers: row.completed_askers,
        goal: row.goal,
    }
}

fn verdict_after(condition: Condition, outcome: &Outcome, verdict: Verdict) -> Verdict
    ensures { result ≡ verdict_after condition outcome.now verdict }
{
    let news = match report_of(outcome) {
        Some(report) => judge(condition, report),
        None => Verdict::Failed,
    };
    match (verdict, news) {
        (Verdict::Failed, _) => Verdict::Failed,
        (_, Verdict::NotYet) => verdict,
        _ => news,
    }
}

/// What the end of a poll says in a legal journal: the verdicts on its slot follow the report, and nothing else changes.
pub fn verdicts_follow_reports()
    ensures { VerdictsFollowReports }
{}
