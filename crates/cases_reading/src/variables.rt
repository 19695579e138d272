use case_files::{Answers, Fields, Line};
use cases_ground::path_tree;
use interpolate::{SubstRefusal, SubstTreeRefusal, subst, subst_tree};
use tree_base::{Path, Tree};

/// `substitute: TEXT` under `variables`: its value as `text`, with so many `bytes`. What was substituted is dropped by a
/// call: a drop in place is proved variant by variant.
pub(crate) fn substitute(fields: &Fields, answers: &mut Answers) {
    let variables = answers.reading.variables(fields, "variables");
    let text = answers.reading.text_at(fields, "substitute");
    let substituted = subst(answers.reading.alloc, &text, &variables);
    match &substituted {
        Ok(value) => {
            answers.put_number("bytes", value.len() as u64);
            answers.put_text("text", value.as_str());
        }
        Err(refusal) => refuse_text(refusal, answers),
    }
    drop(substituted);
}

fn refuse_text(refusal: &SubstRefusal, answers: &mut Answers) {
    let mut words = Line::new(answers.reading.alloc);
    say_refusal(&mut words, refusal);
    answers.put_line("refused", words);
}

/// Says why a text isn't substituted.
pub(crate) fn say_refusal(words: &mut Line, refusal: &SubstRefusal) {
    match refusal {
        SubstRefusal::Unclosed { at } => say_at(words, "Unclosed", *at),
        SubstRefusal::BadForm { at } => say_at(words, "BadForm", *at),
        SubstRefusal::RequiredVariable { name, message } => {
            words.word("RequiredVariable");
            words.word(name.as_str());
            words.put(": ");
            words.put(message.as_str());
        }
        SubstRefusal::TooMuchText => words.word("TooMuchText"),
        SubstRefusal::Memory => words.fail(),
    }
}

/// Says a fault and its place.
pub(crate) fn say_at(words: &mut Line, fault: &str, at: u32) {
    words.word(fault);
    words.number(u64::from(at));
}

/// `substitute_tree: TREE` under `variables`: the `tree` that it gives, with so many `bytes` of keys and scalars; the
/// refusal of a scalar has the path to it as `at`.
pub(crate) fn substitute_tree(fields: &Fields, answers: &mut Answers) {
    let variables = answers.reading.variables(fields, "variables");
    if let Some(tree) = answers.reading.tree_at(fields, "substitute_tree") {
        match subst_tree(answers.reading.alloc, tree, &variables) {
            Ok(tree) => put_tree(tree, answers),
            Err(refusal) => {
                refuse_tree(&refusal, answers);
                drop(refusal);
            }
        }
    }
}

fn put_tree(tree: Tree, answers: &mut Answers) {
    let bytes = tree.text_within(u64::MAX);
    answers.put("tree", tree);
    if let Some(bytes) = bytes {
        answers.put_number("bytes", bytes);
    }
}

fn refuse_tree(refusal: &SubstTreeRefusal, answers: &mut Answers) {
    match refusal {
        SubstTreeRefusal::At { path, cause } => refuse_at(path, cause, answers),
        SubstTreeRefusal::TooMuchText => answers.refuse("TooMuchText"),
        SubstTreeRefusal::Memory => answers.reading.memory(),
    }
}

fn refuse_at(path: &Path, cause: &SubstRefusal, answers: &mut Answers) {
    refuse_text(cause, answers);
    let at = path_tree(answers.reading.alloc, path);
    answers.put_made("at", at);
}
