use case_files::{Answers, Line};
use declared_set::IdentityRefusal;
use file_digests::DigestRefusal;
use include_extends::LoadRefusal;
use loading_words::{TreeRefusal, load_status, load_words, refusal_status, refusal_words};
use tree_base::Text;

/// That files aren't loaded: the line of the refusal, and its exit `status`.
pub(crate) fn refuse_loaded(refusal: &LoadRefusal, answers: &mut Answers) {
    answers.put_number("status", u64::from(load_status(refusal)));
    let words = load_words(answers.reading.alloc, refusal);
    answers.put_said("refused", words);
}

/// That a tree is no project: the line of the refusal, and its exit `status`.
pub(crate) fn refuse_project(refusal: &TreeRefusal, answers: &mut Answers) {
    answers.put_number("status", u64::from(refusal_status(refusal)));
    let words = refusal_words(answers.reading.alloc, refusal);
    answers.put_said("refused", words);
}

/// That a file of a config or a secret has no digest: the refusal's name, and the path.
pub(crate) fn refuse_digests(refusal: &DigestRefusal, answers: &mut Answers) {
    match refusal {
        DigestRefusal::NotFound { path } => refuse(answers, "NotFound", path),
        DigestRefusal::ReadFault { path } => refuse(answers, "ReadFault", path),
        DigestRefusal::FileTooLarge { path } => refuse(answers, "FileTooLarge", path),
        DigestRefusal::Memory => answers.reading.memory(),
    }
}

/// That a project declares nothing: the refusal's name, and what it is of.
pub(crate) fn refuse_declared(refusal: &IdentityRefusal, answers: &mut Answers) {
    match refusal {
        IdentityRefusal::UnknownScale(service) => refuse(answers, "UnknownScale", service),
        IdentityRefusal::TooManyNeeds(count) => refuse_count(answers, "TooManyNeeds", *count),
        IdentityRefusal::NameTwice(name) => refuse(answers, "NameTwice", name),
        IdentityRefusal::Memory => answers.reading.memory(),
    }
}

fn refuse(answers: &mut Answers, refusal: &str, what: &Text) {
    let mut line = Line::of_word(answers.reading.alloc, refusal);
    line.word(what.as_str());
    answers.put_line("refused", line);
}

fn refuse_count(answers: &mut Answers, refusal: &str, count: u64) {
    let mut line = Line::of_word(answers.reading.alloc, refusal);
    line.number(count);
    answers.put_line("refused", line);
}
