ghost use Rattle.std.specs.Prelude.{◌≡◌, ℕ, Err, List};
ghost use Rattle.file_paths.specs.Answers as path_answers;
ghost use Rattle.loaded_files.specs.Refusing.{of_path};
ghost use Rattle.loaded_files.specs.Reads.{IsGiven};
ghost use Rattle.include_extends.specs.Requests.{given_paths, places_of, project_directory};
ghost use Rattle.loaded_files.specs.declared.refusal.LoadRefusal.{LoadRefusal};

use file_paths::{PathRefusal, all_homed, directory_of, homed, joined};
use loaded_files::LoadRefusal;
use std::alloc::Global;
use tree_base::{Env, List, Text};

/// What a call loads. Paths stand as they were given; relative ones, and those in `~/`, are taken against `cwd` and
/// the `HOME` of `env`.
#[derive(Drop)]
pub struct LoadRequest {
    /// The files of the model, in order; where there is none, the default file of the project directory.
    pub files: List<Text>,
    /// The project directory; where there is none, that of the first file, or else `cwd`.
    pub project_directory: Option<Text>,
    /// The env files, in order; where there is none, `.env` of the project directory, if it is there.
    pub env_files: List<Text>,
    /// The caller's variables.
    pub env: Env,
    /// The working directory.
    pub cwd: Text,
}

/// The places of a model, as absolute paths.
#[derive(Drop)]
pub struct Places {
    pub files: List<Text>,
    /// The env files, of which there may be none; where they aren't given, `.env` of the directory, if it is there.
    pub env_files: Option<List<Text>>,
    pub directory: Text,
}

/// The places that a request names.
pub(crate) fn places_of(alloc: Global, request: &LoadRequest) -> Result<Places, LoadRefusal>
    ensures given { IsGiven result (of_path (places_of request.now)) }
    ensures fault { (at : List ℕ) → result ≡ Err (LoadRefusal.ReadFault at) → ⊥ }
{
    match named_places(alloc, request) {
        Ok(places) => Ok(places),
        Err(PathRefusal::NoHome { path }) => Err(LoadRefusal::NoHome { path }),
        Err(PathRefusal::Memory) => Err(LoadRefusal::Memory),
    }
}

fn named_places(alloc: Global, request: &LoadRequest) -> Result<Places, PathRefusal>
    ensures { path_answers.Gives result (places_of request.now) }
{
    let files = all_homed(alloc, &request.cwd, &request.env, request.files.as_slice())?;
    let env_files = all_homed(
        alloc,
        &request.cwd,
        &request.env,
        request.env_files.as_slice(),
    )?;
    let directory = project_directory(alloc, request, files.as_slice())?;
    Ok(Places {
        files,
        env_files: given_paths(env_files),
        directory,
    })
}

/// Some paths, or None where there is none.
fn given_paths(paths: List<Text>) -> Option<List<Text>>
    ensures { result ≡ given_paths paths }
{
    if paths.is_empty() {
        drop(paths);
        None
    } else {
        Some(paths)
    }
}

/// The project directory of a request with these files.
fn project_directory(
    alloc: Global,
    request: &LoadRequest,
    files: &[Text],
) -> Result<Text, PathRefusal>
    ensures { path_answers.Gives result (project_directory request.now.cwd request.now.env
        files.now request.now.project_directory) }
{
    match &request.project_directory {
        Some(path) => homed(alloc, &request.cwd, &request.env, path),
        None => match files {
            [first, ..] => Ok(directory_of(alloc, first)?),
            [] => Ok(joined(alloc, &request.cwd, "")?),
        },
    }
}
