ghost use Rattle.typed_project.specs.Projects.{IsOrdered};

use case_files::{Answers, Fields};
use loading_words::{TreeRefusal, refusal_status, refusal_words};
use project_keys::keyed_project;
use service_graph::dependents;
use tree_base::{Text, Tree};
use typed_project::Project;

/// `dependents: NAME`: the `keys` of the services that need the one of this name, in the project that a merged tree, its `project`,
/// means; or the line of the refusal, and its exit `status`.
pub(crate) fn needing(fields: &Fields, answers: &mut Answers) {
    let key = answers.reading.text_at(fields, "dependents");
    if let Some(tree) = answers.reading.tree_at(fields, "project") {
        put_project(tree, &key, answers);
    }
    drop(key);
}

fn put_project(tree: &Tree, key: &Text, answers: &mut Answers) {
    let name = answers.reading.text("shop");
    match keyed_project(answers.reading.alloc, &name, tree) {
        Ok(project) => {
            put_needing(&project, key, answers);
            drop(project);
        }
        Err(refusal) => {
            refuse(&refusal, answers);
            drop(refusal);
        }
    }
    drop(name);
}

fn put_needing(project: &Project, key: &Text, answers: &mut Answers)
    requires order { IsOrdered project.now }
{
    let keys = dependents(answers.reading.alloc, project, key);
    if let Some(keys) = answers.reading.made(keys) {
        answers.put_texts("keys", keys);
    }
}

fn refuse(refusal: &TreeRefusal, answers: &mut Answers) {
    answers.put_number("status", u64::from(refusal_status(refusal)));
    let words = refusal_words(answers.reading.alloc, refusal);
    answers.put_said("refused", words);
}
