use active_services::profiles_given;
use compose_words::Options;
use include_extends::{LoadRequest, Loaded, load};
use kept_files::Kept;
use normal_form::project_of;
use outside_files::MemoryFiles;
use std::alloc::Global;
use tree_base::{Env, List, Map, Memory, Text, Tree, TryCopy};
use typed_project::Project;

/// What a call loaded, as its kept files give it once more.
#[derive(Drop)]
pub struct LoadedAgain {
    pub loaded: Loaded,
    pub(crate) files: MemoryFiles,
}

/// Loads once more what options ask for under these variables in this working directory, of the files that were kept. None where that is
/// refused.
pub fn load_again(
    alloc: Global,
    variables: &Env,
    directory: &Text,
    options: &Options,
    kept: Kept,
) -> Option<LoadedAgain> {
    let Ok(request) = request_for(alloc, variables, directory, options) else {
        return None;
    };
    let mut files = MemoryFiles::new(alloc, kept, List::new(alloc));
    let found = load(alloc, &mut files, &request);
    // By calls, here and below: else all drops would be proved at each way out.
    drop(request);
    match found {
        Ok(loaded) => Some(LoadedAgain { loaded, files }),
        Err(refusal) => {
            drop(refusal);
            drop(files);
            None
        }
    }
}

/// What options, variables and the working directory ask to be loaded.
fn request_for(
    alloc: Global,
    variables: &Env,
    directory: &Text,
    options: &Options,
) -> Result<LoadRequest, Memory> {
    Ok(LoadRequest {
        files: options.files.copy(alloc)?,
        project_directory: options.directory.copy(alloc)?,
        env_files: options.env_files.copy(alloc)?,
        env: variables.copy(alloc)?,
        cwd: directory.copy(alloc)?,
    })
}

/// The project of what was loaded. None where it is refused.
pub fn project_again(alloc: Global, options: &Options, loaded: &Loaded) -> Option<Project> {
    let Ok(profiles) = profiles_given(alloc, &options.profiles, &loaded.env) else {
        return None;
    };
    let found = project_of(alloc, options.project.as_ref(), &profiles, loaded);
    drop(profiles);
    match found {
        Ok(project) => Some(project),
        Err(refusal) => {
            drop(refusal);
            None
        }
    }
}

/// The services of a tree under their keys, those that no profile enables among them.
pub fn services_in(tree: &Tree) -> Option<&Map> {
    match tree {
        Tree::Map(top) => entries_of(top.get().find("services")?),
        _ => None,
    }
}

fn entries_of(tree: &Tree) -> Option<&Map> {
    match tree {
        Tree::Map(entries) => Some(entries.get()),
        _ => None,
    }
}
