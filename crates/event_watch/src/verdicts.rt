ghost use Rattle.std.specs.Prelude.{◌≡◌, List, ◌++◌, ◌∷◌, []};
ghost use Rattle.engine_types.specs.declared.Report.{Report};
ghost use Rattle.event_watch.specs.Verdicts.{judged, next_verdict};

use engine_types::{Condition, Report};
use health_watch::judge;
use run_model::Verdict;

/// The verdict on a goal behind one more report: one that has failed stays so, and one that is met stays so unless it fails. No
/// memory.
pub fn next_verdict(condition: Condition, before: Verdict, report: &Report) -> Verdict
    ensures next { result ≡ next_verdict condition before report.now }
    ensures judged { (reports : List Report) → before ≡ judged condition reports
        → result ≡ judged condition (reports ++ report.now ∷ []) }
{
    match (before, judge(condition, report)) {
        (Verdict::Failed, _) => Verdict::Failed,
        (_, Verdict::Failed) => Verdict::Failed,
        (Verdict::Met, _) => Verdict::Met,
        (_, said) => said,
    }
}
