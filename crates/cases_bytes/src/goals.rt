use case_files::{Answers, Fields, Line, Lines};
use cases_messages::{condition_of, read_report};
use engine_types::Condition;
use event_watch::next_verdict;
use run_model::Verdict;
use tree_base::Text;

/// What reports on a container say of a goal together: the `verdicts`, one behind each of the `reports`.
pub(crate) fn goal(fields: &Fields, answers: &mut Answers) {
    let word = answers.reading.text_at(fields, "goal");
    let condition = condition_of(&mut answers.reading, word.as_str());
    let reports = answers.reading.texts(fields, "reports");
    put_verdicts(condition, reports.as_slice(), answers);
}

fn put_verdicts(condition: Condition, reports: &[Text], answers: &mut Answers) {
    let alloc = answers.reading.alloc;
    let mut verdicts = Lines::new(alloc);
    let mut verdict = Verdict::NotYet;
    for words in reports {
        let report = read_report(&mut answers.reading, words.as_str());
        verdict = next_verdict(condition, verdict, &report);
        verdicts.push(Line::of_word(alloc, verdict_word(verdict)));
    }
    answers.put_lines("verdicts", verdicts);
}

fn verdict_word(verdict: Verdict) -> &'static str {
    match verdict {
        Verdict::Met => "met",
        Verdict::Failed => "failed",
        Verdict::NotYet => "not yet",
    }
}
