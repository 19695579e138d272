use crate::refusing::refuse;
use case_files::{Answers, Fields};
use short_forms::FormRefusal;
use std::fmt;
use tree_base::{Memory, Text};

/// `duration: TEXT`: its `microseconds`.
pub(crate) fn duration(fields: &Fields, answers: &mut Answers) {
    let text = answers.reading.text_at(fields, "duration");
    put_read("microseconds", short_forms::duration(&text), answers);
}

/// `size: TEXT`: its `bytes`.
pub(crate) fn size(fields: &Fields, answers: &mut Answers) {
    let text = answers.reading.text_at(fields, "size");
    put_read("bytes", short_forms::size(&text), answers);
}

/// `decimal: TEXT`: its `billionths`.
pub(crate) fn decimal(fields: &Fields, answers: &mut Answers) {
    let text = answers.reading.text_at(fields, "decimal");
    put_read("billionths", short_forms::decimal(&text), answers);
}

fn put_read(name: &str, read: Result<u64, FormRefusal>, answers: &mut Answers) {
    match read {
        Ok(number) => answers.put_number(name, number),
        Err(refusal) => refuse_form(refusal, answers),
    }
}

/// Puts why a short form wasn't read.
pub(crate) fn refuse_form(refusal: FormRefusal, answers: &mut Answers) {
    match refusal {
        FormRefusal::BadForm { .. } => refuse(&refusal, answers),
        FormRefusal::Memory => answers.reading.memory(),
    }
}

/// `key_value: TEXT`: its `key` and its `value`, or null for none.
pub(crate) fn key_value(fields: &Fields, answers: &mut Answers) {
    let text = answers.reading.text_at(fields, "key_value");
    match short_forms::key_value(answers.reading.alloc, &text) {
        Ok((key, value)) => put_pair(&key, &value, answers),
        Err(refusal) => refuse_form(refusal, answers),
    }
}

fn put_pair(key: &Text, value: &Option<Text>, answers: &mut Answers) {
    answers.put_text("key", key.as_str());
    match value {
        Some(value) => answers.put_text("value", value.as_str()),
        None => answers.put_null("value"),
    }
}

/// `shell_words: TEXT`: its `words`.
pub(crate) fn shell_words(fields: &Fields, answers: &mut Answers) {
    let text = answers.reading.text_at(fields, "shell_words");
    match short_forms::shell_words(answers.reading.alloc, &text) {
        Ok(words) => answers.put_texts("words", words),
        Err(refusal) => refuse_form(refusal, answers),
    }
}

/// `out_of_memory: ERROR`: the `words` of an error that says so.
pub(crate) fn out_of_memory(fields: &Fields, answers: &mut Answers) {
    let kind = answers.reading.text_at(fields, "out_of_memory");
    match kind.as_str() {
        "Memory" => put_words(&Memory, answers),
        "FormRefusal" => put_words(&FormRefusal::Memory, answers),
        _ => answers.reading.refuse("there is no such error"),
    }
}

fn put_words(error: &impl fmt::Display, answers: &mut Answers) {
    answers.put_printed("words", format!(in answers.reading.alloc; "{error}"));
}
