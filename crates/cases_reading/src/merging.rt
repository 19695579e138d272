use case_files::{Answers, Fields};
use cases_ground::{path_tree, tree_with_marks};
use long_forms::long_forms;
use merge_rules::{overlay, overlay_file};
use merge_tables::MergeRefusal;
use std::alloc::Global;
use tree_base::{Path, Tree};

/// `merge: FILES`, a tree each: the `tree` that they give, each in long forms and laid over what those before it gave.
pub(crate) fn merge(fields: &Fields, answers: &mut Answers) {
    let files = answers.reading.items(fields, "merge");
    put_merged(files_merged(files, answers.reading.alloc), answers);
}

fn files_merged(files: &[Tree], alloc: Global) -> Result<Tree, MergeRefusal> {
    let mut base = Tree::Null;
    for file in files {
        base = file_merged(file, base, alloc)?;
    }
    Ok(base)
}

fn file_merged(file: &Tree, base: Tree, alloc: Global) -> Result<Tree, MergeRefusal> {
    let over = long_forms(alloc, file.copy(alloc)?)?;
    let merged = overlay_file(alloc, base, &over);
    drop(over);
    merged
}

/// `long_forms: TREE`: the `tree` of a file in long forms.
pub(crate) fn in_long_forms(fields: &Fields, answers: &mut Answers) {
    if let Some(tree) = answers.reading.tree_at(fields, "long_forms") {
        put_merged(long_copy(tree, answers.reading.alloc), answers);
    }
}

fn long_copy(tree: &Tree, alloc: Global) -> Result<Tree, MergeRefusal> {
    long_forms(alloc, tree.copy(alloc)?)
}

/// `overlay: TREE` over a `base`, as they stand, with their marks: the `tree` that they give.
pub(crate) fn laid(fields: &Fields, answers: &mut Answers) {
    if let Some(over) = answers.reading.tree_at(fields, "overlay") {
        if let Some(base) = answers.reading.tree_at(fields, "base") {
            let over = tree_with_marks(&mut answers.reading, over);
            let base = tree_with_marks(&mut answers.reading, base);
            put_merged(overlay(answers.reading.alloc, &base, &over), answers);
            drop(over);
            drop(base);
        }
    }
}

/// Puts a merged tree; a refusal with a path has it as `at`.
fn put_merged(merged: Result<Tree, MergeRefusal>, answers: &mut Answers) {
    match merged {
        Ok(tree) => answers.put("tree", tree),
        Err(refusal) => {
            refuse(&refusal, answers);
            drop(refusal);
        }
    }
}

fn refuse(refusal: &MergeRefusal, answers: &mut Answers) {
    match refusal {
        MergeRefusal::KindMismatch { path } => refuse_at("KindMismatch", path, answers),
        MergeRefusal::BadUniqueEntry { path } => refuse_at("BadUniqueEntry", path, answers),
        MergeRefusal::MarkUnderExtends { path } => refuse_at("MarkUnderExtends", path, answers),
        MergeRefusal::TooManyNodes => answers.refuse("TooManyNodes"),
        MergeRefusal::TooMuchText => answers.refuse("TooMuchText"),
        MergeRefusal::Memory => answers.reading.memory(),
    }
}

fn refuse_at(fault: &str, path: &Path, answers: &mut Answers) {
    answers.refuse(fault);
    let at = path_tree(answers.reading.alloc, path);
    answers.put_made("at", at);
}
