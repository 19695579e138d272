ghost use Rattle.std.specs.Prelude.{◌≡◌, IfOk};
ghost use Rattle.typed_project.specs.DistinctNames.{IsKeyed};

use crate::asked::{directory_at, options_at, reads_files, request_of, scales_of, texts_copy};
use crate::files::files_of;
use crate::refusing::{refuse_declared, refuse_digests, refuse_loaded, refuse_project};
use crate::resources::{put_networks, put_volumes};
use crate::services::put_services;
use crate::slots::{put_first, put_slots};
use crate::words::digest_lines;
use active_services::profiles_given;
use case_files::{Answers, Fields};
use compose_words::Options;
use declared_set::{FileDigest, IdentityRefusal, LoadedProject, declare};
use engine_types::Declared;
use file_digests::{DigestRefusal, digests, empty_digests};
use include_extends::{LoadRefusal, Loaded, load};
use loading_words::TreeRefusal;
use normal_form::project_of;
use outside_files::MemoryFiles;
use std::alloc::Global;
use tree_base::{List, Memory};
use typed_project::Project;

/// What a Compose text declares with the `words` of a call, beside further `files`: the `project`, its `slots`, `services`,
/// `networks` and `volumes`, and the `digests` of its files; any other answer is a member of the first slot. Or why it is
/// refused.
pub(crate) fn declares(fields: &Fields, answers: &mut Answers) {
    let options = options_at(&mut answers.reading, fields);
    if let Some(options) = &options {
        declares_for(options, fields, answers);
    }
    drop(options);
}

fn declares_for(options: &Options, fields: &Fields, answers: &mut Answers) {
    let directory = directory_at(&mut answers.reading, fields);
    let mut files = files_of(&mut answers.reading, fields, directory.as_str());
    let request = request_of(&mut answers.reading, options, fields);
    let loaded = load(answers.reading.alloc, &mut files, &request);
    drop(request);
    put_loaded(&loaded, options, &mut files, fields, answers);
    drop(loaded);
    drop(files);
}

fn put_loaded(
    loaded: &Result<Loaded, LoadRefusal>,
    options: &Options,
    files: &mut MemoryFiles,
    fields: &Fields,
    answers: &mut Answers,
) {
    match loaded {
        Ok(loaded) => put_project_in(loaded, options, files, fields, answers),
        Err(refusal) => refuse_loaded(refusal, answers),
    }
}

fn put_project_in(
    loaded: &Loaded,
    options: &Options,
    files: &mut MemoryFiles,
    fields: &Fields,
    answers: &mut Answers,
) {
    let alloc = answers.reading.alloc;
    let given = profiles_given(alloc, &options.profiles, &loaded.env);
    let profiles = answers.reading.given(given, List::new(alloc));
    let project = project_of(alloc, options.project.as_ref(), &profiles, loaded);
    drop(profiles);
    put_project(project, loaded, options, files, fields, answers);
}

fn put_project(
    project: Result<Project, TreeRefusal>,
    loaded: &Loaded,
    options: &Options,
    files: &mut MemoryFiles,
    fields: &Fields,
    answers: &mut Answers,
)
    requires keyed { IfOk project IsKeyed }
{
    match project {
        Ok(project) => {
            let whole = with_origin(project, loaded, answers);
            put_digests_of(&whole, options, files, fields, answers);
            drop(whole);
        }
        Err(refusal) => {
            refuse_project(&refusal, answers);
            drop(refusal);
        }
    }
}

/// A project with the files and the directory that were loaded.
fn with_origin(project: Project, loaded: &Loaded, answers: &mut Answers) -> LoadedProject
    ensures { result.project ≡ project }
{
    let files = texts_copy(&mut answers.reading, &loaded.files);
    let directory = answers.reading.text(loaded.directory.as_str());
    LoadedProject {
        project,
        files,
        directory,
    }
}

fn put_digests_of(
    loaded: &LoadedProject,
    options: &Options,
    files: &mut MemoryFiles,
    fields: &Fields,
    answers: &mut Answers,
)
    requires keyed { IsKeyed loaded.now.project }
{
    let read = digests_for(answers.reading.alloc, options, files, &loaded.project);
    put_digests(&read, loaded, options, fields, answers);
    drop(read);
}

/// The digests of a project's files: they are read for `up`, and empty for another command.
fn digests_for(
    alloc: Global,
    options: &Options,
    files: &mut MemoryFiles,
    project: &Project,
) -> Result<List<FileDigest>, DigestRefusal> {
    if reads_files(options) {
        return digests(alloc, files, project);
    }
    match empty_digests(alloc, project) {
        Ok(empty) => Ok(empty),
        Err(Memory) => Err(DigestRefusal::Memory),
    }
}

fn put_digests(
    read: &Result<List<FileDigest>, DigestRefusal>,
    loaded: &LoadedProject,
    options: &Options,
    fields: &Fields,
    answers: &mut Answers,
)
    requires keyed { IsKeyed loaded.now.project }
{
    match read {
        Ok(digests) => {
            let lines = digest_lines(answers.reading.alloc, digests.as_slice());
            answers.put_lines("digests", lines);
            put_declared_by(loaded, options, digests.as_slice(), fields, answers);
        }
        Err(refusal) => refuse_digests(refusal, answers),
    }
}

fn put_declared_by(
    loaded: &LoadedProject,
    options: &Options,
    digests: &[FileDigest],
    fields: &Fields,
    answers: &mut Answers,
)
    requires keyed { IsKeyed loaded.now.project }
{
    let declared = declare(answers.reading.alloc, loaded, scales_of(options), digests);
    put_declared(&declared, fields, answers);
    drop(declared);
}

fn put_declared(
    declared: &Result<Declared, IdentityRefusal>,
    fields: &Fields,
    answers: &mut Answers,
) {
    match declared {
        Ok(declared) => {
            answers.put_text("project", declared.project.as_str());
            put_slots(declared, fields, answers);
            put_first(declared, fields, answers);
            put_services(declared, fields, answers);
            put_networks(declared, fields, answers);
            put_volumes(declared, fields, answers);
        }
        Err(refusal) => refuse_declared(refusal, answers),
    }
}
