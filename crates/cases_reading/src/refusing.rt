use case_files::Answers;
use std::fmt;

/// Puts a refusal, in the words that it prints.
pub(crate) fn refuse(refusal: &impl fmt::Display, answers: &mut Answers) {
    answers.put_printed("refused", format!(in answers.reading.alloc; "{refusal}"));
}
