use crate::files::files_of;
use case_files::{Answers, Fields, Reading};
use include_extends::{LoadRefusal, LoadRequest, Loaded, load};
use loading_words::{load_status, load_words};
use tree_base::Text;

/// `load_files: NAMES`, as `-f` gives them, of `files` in memory, under the variables `environment` and those of
/// `env_files`, in a `project_directory` and a working `directory` (`/w/shop`): the `tree` that is loaded, with so many
/// `nodes` and `bytes`, and the project directory as `loaded_in`; or what is `refused`, with its exit `status`.
pub fn load_files(fields: &Fields, answers: &mut Answers) {
    let request = request_of(&mut answers.reading, fields);
    load_asked(&request, fields, answers);
    drop(request);
}

fn request_of(reading: &mut Reading, fields: &Fields) -> LoadRequest {
    LoadRequest {
        files: reading.texts(fields, "load_files"),
        project_directory: directory_in(reading, fields),
        env_files: reading.texts(fields, "env_files"),
        env: reading.variables(fields, "environment"),
        cwd: reading.text_or(fields, "directory", "/w/shop"),
    }
}

/// The project directory that a case gives, which may be the empty text.
fn directory_in(reading: &mut Reading, fields: &Fields) -> Option<Text> {
    if fields.has("project_directory") {
        Some(reading.text_at(fields, "project_directory"))
    } else {
        None
    }
}

/// What was loaded is dropped by a call: a drop in place is proved variant by variant.
fn load_asked(request: &LoadRequest, fields: &Fields, answers: &mut Answers) {
    let mut files = files_of(&mut answers.reading, fields, request.cwd.as_str());
    let loaded = load(answers.reading.alloc, &mut files, request);
    drop(files);
    put_loaded(&loaded, answers);
    drop(loaded);
}

fn put_loaded(loaded: &Result<Loaded, LoadRefusal>, answers: &mut Answers) {
    match loaded {
        Ok(loaded) => put_tree(loaded, answers),
        Err(refusal) => refuse_load(refusal, answers),
    }
}

fn put_tree(loaded: &Loaded, answers: &mut Answers) {
    let copy = loaded.tree.copy(answers.reading.alloc);
    answers.put_made("tree", copy);
    put_count("nodes", loaded.tree.nodes_within(u64::MAX), answers);
    put_count("bytes", loaded.tree.text_within(u64::MAX), answers);
    answers.put_text("loaded_in", loaded.directory.as_str());
}

fn put_count(name: &str, count: Option<u64>, answers: &mut Answers) {
    if let Some(count) = count {
        answers.put_number(name, count);
    }
}

fn refuse_load(refusal: &LoadRefusal, answers: &mut Answers) {
    answers.put_number("status", u64::from(load_status(refusal)));
    let words = load_words(answers.reading.alloc, refusal);
    answers.put_said("refused", words);
}
