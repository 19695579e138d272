use active_services::{ActiveRefusal, keep_active, profiles_given};
use case_files::{Answers, Fields};
use loading_words::{active_status, active_words};
use std::alloc::Global;
use tree_base::{Env, List, Memory, Text, Tree};

/// `active: TREE`: the `tree` of a model with the services alone that its `profiles`, and those of `COMPOSE_PROFILES`
/// among the `variables`, enable; or the line of the refusal, and its exit `status`.
pub(crate) fn active(fields: &Fields, answers: &mut Answers) {
    if let Some(tree) = answers.reading.tree_at(fields, "active") {
        let options = answers.reading.texts(fields, "profiles");
        let env = answers.reading.variables(fields, "variables");
        let kept = active_tree(answers.reading.alloc, tree, &options, &env);
        put_kept(kept, answers);
        drop(options);
        drop(env);
    }
}

fn active_tree(
    alloc: Global,
    tree: &Tree,
    options: &List<Text>,
    env: &Env,
) -> Result<Tree, ActiveRefusal> {
    let Ok(profiles) = profiles_given(alloc, options, env) else {
        return Err(ActiveRefusal::Memory);
    };
    let kept = kept_of(alloc, tree, &profiles);
    drop(profiles);
    kept
}

fn kept_of(alloc: Global, tree: &Tree, profiles: &List<Text>) -> Result<Tree, ActiveRefusal> {
    match tree.copy(alloc) {
        Ok(tree) => keep_active(alloc, tree, profiles),
        Err(Memory) => Err(ActiveRefusal::Memory),
    }
}

fn put_kept(kept: Result<Tree, ActiveRefusal>, answers: &mut Answers) {
    match kept {
        Ok(tree) => answers.put("tree", tree),
        Err(refusal) => {
            refuse(&refusal, answers);
            drop(refusal);
        }
    }
}

fn refuse(refusal: &ActiveRefusal, answers: &mut Answers) {
    answers.put_number("status", u64::from(active_status(refusal)));
    let words = active_words(answers.reading.alloc, refusal);
    answers.put_said("refused", words);
}
