use crate::calls::{answer, inputs_of};
use crate::case_file::cases_of;
use crate::run::Run;
use crate::stop::Stop;
use case_files::{Answers, Case, CaseFault, Line};
use std::alloc::Global;
use tree_base::{Text, Tree};

/// Runs the cases of a file, and counts them.
pub fn run_file(rt: &HostRuntime, file: &Text, run: &mut Run) {
    run.counts.files = run.counts.files.saturating_add(1);
    match cases_of(rt, file) {
        Ok(cases) => run_cases(rt, file, cases.as_slice(), run),
        Err(CaseFault::Memory) => run.break_off(Stop::Memory),
        Err(CaseFault::NoCase(words)) => {
            run.counts.unread = run.counts.unread.saturating_add(1);
            run.tell(rt, unread_line(rt.alloc(), file, &words));
        }
    }
}

/// That a file isn't read, and why.
fn unread_line(alloc: Global, file: &Text, words: &Text) -> Line {
    let mut line = Line::new(alloc);
    line.put(file.as_str());
    line.put(": ");
    line.put(words.as_str());
    line.put("\n");
    line
}

fn run_cases(rt: &HostRuntime, file: &Text, cases: &[Tree], run: &mut Run) {
    for (at, tree) in cases.iter().enumerate() {
        if run.goes_on() {
            run.counts.cases = run.counts.cases.saturating_add(1);
            run_case(rt, file, at, tree, run);
        }
    }
}

/// Runs a case, and says how it differs or why it is none.
fn run_case(rt: &HostRuntime, file: &Text, at: usize, tree: &Tree, run: &mut Run) {
    match differences(rt.alloc(), tree) {
        Ok(None) => {}
        Ok(Some(words)) => {
            run.counts.differ = run.counts.differ.saturating_add(1);
            let mut line = case_line(rt.alloc(), file, at);
            line.put(words.as_str());
            run.tell(rt, line);
        }
        Err(CaseFault::NoCase(words)) => {
            run.counts.no_cases = run.counts.no_cases.saturating_add(1);
            let mut line = case_line(rt.alloc(), file, at);
            line.put("no case: ");
            line.put(words.as_str());
            line.put("\n");
            run.tell(rt, line);
        }
        Err(CaseFault::Memory) => run.break_off(Stop::Memory),
    }
}

/// The beginning of what is told of a case, which count from 1.
fn case_line(alloc: Global, file: &Text, at: usize) -> Line {
    let mut line = Line::new(alloc);
    line.put(file.as_str());
    line.put(", case ");
    line.put_number((at as u64).saturating_add(1));
    line.put(": ");
    line
}

/// The title of a case and the lines of its differences; None where its answers are as wanted.
fn differences(alloc: Global, tree: &Tree) -> Result<Option<Text>, CaseFault> {
    let case = Case::of_tree(alloc, tree)?;
    let call = case.call()?;
    let Some(inputs) = inputs_of(call.as_str()) else {
        return no_call(alloc, call);
    };
    case.has_wanted(call, inputs)?;
    answered(alloc, &case, call, inputs)
}

/// NoCase: there is no such call.
fn no_call(alloc: Global, call: &Text) -> Result<Option<Text>, CaseFault> {
    let mut answers = Answers::new(alloc);
    answers.reading.no_call(call.as_str());
    let sound = answers.reading.sound();
    drop(answers);
    sound?;
    Ok(None)
}

/// Makes the call of a case, and says in what its answers differ.
fn answered(
    alloc: Global,
    case: &Case,
    call: &Text,
    inputs: &[&str],
) -> Result<Option<Text>, CaseFault> {
    let mut answers = Answers::new(alloc);
    answer(call.as_str(), case.fields(), &mut answers);
    let told = told(case, call, inputs, &mut answers);
    drop(answers);
    told
}

/// What a case is told to differ in, where it could be run.
fn told(
    case: &Case,
    call: &Text,
    inputs: &[&str],
    answers: &mut Answers,
) -> Result<Option<Text>, CaseFault> {
    answers.reading.sound()?;
    case.told_differences(call, inputs, answers)
}
