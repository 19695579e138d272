use crate::planning::{declared_at, seen_at};
use case_files::{Answers, Fields};
use cases_messages::request_line;
use cases_values::{journal_of, plan_of};
use engine_types::{Entry, RunFault};
use refusals::{Refusal, refusal_line, refusal_of, refusal_status};
use run_report::{fault, report};
use run_requests::Run;

/// What a journal of a plan for what is declared and seen ends with: its `status`, its `report`, the line of its `fault`
/// (null where there is none), and the request that failed, `asked`. With `wait` its run waits for goals.
pub(crate) fn ending(fields: &Fields, answers: &mut Answers) {
    let reading = &mut answers.reading;
    let declared = declared_at(reading, fields);
    let seen = seen_at(reading, fields, &declared.project);
    let plan = plan_of(reading, fields, "plan");
    let journal = journal_of(reading, fields, "ending");
    let mut run = Run::of_one_worker(&declared, &seen, &plan);
    run.limits.wait = reading.flag(fields, "wait");
    put_report(&run, journal.as_slice(), answers);
    put_found(&run, journal.as_slice(), answers);
    drop(declared);
    drop(seen);
    drop(plan);
}

fn put_report(run: &Run<'_>, journal: &[Entry], answers: &mut Answers) {
    let said = report(answers.reading.alloc, run, journal);
    answers.put_said("report", said);
}

/// Puts the fault of a journal.
fn put_found(run: &Run<'_>, journal: &[Entry], answers: &mut Answers) {
    let found = fault(answers.reading.alloc, run, journal);
    if let Some(fault) = answers.reading.made(found) {
        put_fault(fault, answers);
    }
}

/// Puts what a fault says: its status, the request that failed, and its line.
pub(crate) fn put_fault(fault: Option<RunFault>, answers: &mut Answers) {
    match fault {
        Some(fault) => put_failure(fault, answers),
        None => {
            answers.put_number("status", 0);
            answers.put_null("fault");
        }
    }
}

fn put_failure(fault: RunFault, answers: &mut Answers) {
    put_request(&fault, answers);
    let refusal = refusal_of(fault);
    answers.put_number("status", u64::from(refusal_status(&refusal)));
    put_refusal_line("fault", &refusal, answers);
    drop(refusal);
}

/// Puts the line of a refusal.
pub(crate) fn put_refusal_line(name: &str, refusal: &Refusal, answers: &mut Answers) {
    let line = refusal_line(answers.reading.alloc, refusal);
    answers.put_said(name, line);
}

fn put_request(fault: &RunFault, answers: &mut Answers) {
    if let RunFault::Request { request, .. } = fault {
        answers.put_line("asked", request_line(answers.reading.alloc, request));
    }
}
