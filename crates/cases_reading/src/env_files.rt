use crate::variables::{say_at, say_refusal};
use case_files::{Answers, Fields, Line};
use cases_ground::variables_tree;
use dotenv::{EnvRefusal, read_env};

/// `env_file: BYTES` under the variables `outer`: the `variables` that it gives, in their order. What was read is dropped by
/// a call: a drop in place is proved variant by variant.
pub(crate) fn env_file(fields: &Fields, answers: &mut Answers) {
    let outer = answers.reading.variables(fields, "outer");
    let bytes = answers.reading.bytes_at(fields, "env_file");
    let read = read_env(answers.reading.alloc, bytes.as_slice(), &outer);
    match &read {
        Ok(variables) => {
            let tree = variables_tree(answers.reading.alloc, variables);
            answers.put_made("variables", tree);
        }
        Err(refusal) => refuse_file(refusal, answers),
    }
    drop(read);
}

fn refuse_file(refusal: &EnvRefusal, answers: &mut Answers) {
    let mut words = Line::new(answers.reading.alloc);
    match refusal {
        EnvRefusal::BadLine { line } => say_at(&mut words, "BadLine", *line),
        EnvRefusal::BadQuote { line } => say_at(&mut words, "BadQuote", *line),
        EnvRefusal::Subst { line, cause } => {
            say_at(&mut words, "Subst", *line);
            words.put(":");
            say_refusal(&mut words, cause);
        }
        EnvRefusal::TooMuchText { line } => say_at(&mut words, "TooMuchText", *line),
        EnvRefusal::Memory => words.fail(),
    }
    answers.put_line("refused", words);
}
