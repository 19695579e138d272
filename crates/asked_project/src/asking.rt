ghost use Rattle.std.specs.Prelude.{◌≡◌, ◌<◌, ◌≤◌, ◌^◌, Err, Ok, IfErr, IfOk, IfSome, IsTrue, length};
ghost use Rattle.asked_project.specs.Asking.{options_asked};
ghost use Rattle.asked_project.specs.Meaning.{IsFailedLoad, IsFailedRead, IsLoaded, IsSpelled, MeansAs, load_for, meaning, request_for};
ghost use Rattle.asked_project.specs.Parts.{MeansFor, asked_with};
ghost use Rattle.loaded_files.specs.Reads as loads;
ghost use Rattle.loaded_files.specs.declared.LoadRefusal.{LoadRefusal};
ghost use Rattle.outside_files.specs.Counts.{Rose};
ghost use Rattle.refusals.specs.Origins.{IsOfAsking, is_of_words};
ghost use Rattle.refusals.specs.Refused.{wants_memory};
ghost use Rattle.refusals.specs.Went.{WentAs};
ghost use Rattle.refusals.specs.declared.Refusal.{Refusal};
ghost use Rattle.typed_project.specs.DistinctNames.{IsKeyed};
ghost use Rattle.tree_base.specs.Answers.{Gives};

use crate::loaded::project_loaded;
use crate::words::options_asked;
use compose_words::Options;
use declared_set::LoadedProject;
use include_extends::{LoadRefusal, LoadRequest, Loaded, load};
use outside_files::Files;
use refusals::Refusal;
use std::alloc::Global;
use tree_base::{Env, List, Memory, Text, TryCopy};

/// What a call is asked: its command with all options, and the project that it is for, with what that was loaded from.
#[derive(Drop)]
pub struct Asked {
    pub options: Options,
    pub loaded: LoadedProject,
}

/// The command with its options that words ask for, and the project that the variables, the working directory `cwd`
/// and the files give, with its files and its directory. The refusals, in their order: `Words` where the words are none;
/// `NotBuilt(Words)` where they ask for what isn't built yet; `Words(BadHost)` where they use `DOCKER_HOST`, and that names no
/// Engine; those of loading; and those of the project: of its name, of its active services, and of what stands in it.
pub fn project_asked<F: Files>(
    alloc: Global,
    words: &List<Text>,
    env: &Env,
    cwd: &Text,
    files: &mut F,
) -> Result<Asked, Refusal>
    requires { length words.now < 2 ^ 32 }
    ensures told { IfSome (F.told files.old) (λ contents.
        MeansAs (meaning words.now env.now cwd.now contents) result) }

    // Words are refused exactly, also where the files aren't told.
    ensures words { IfErr (options_asked words.now env.now) (λ refusal.
        Gives wants_memory result (Err refusal)) }
    ensures words_only { IfErr result (λ refusal.
        IsTrue (is_of_words refusal) → options_asked words.now env.now ≡ Err refusal) }
    ensures options { IfOk result (λ asked. options_asked words.now env.now ≡ Ok asked.options) }

    // Some answers of reads give the project, and what it declares is in order.
    ensures text { IfOk result (λ asked.
        IsSpelled words.now env.now cwd.now (F.told files.old) asked.loaded) }
    ensures keyed { IfOk result (λ asked. IsKeyed asked.loaded.project) }

    // A read that failed is one that words that are built come to, and was counted.
    ensures read { (path : _) → result ≡ Err (Refusal.Load (LoadRefusal.ReadFault path))
        → IsFailedRead words.now env.now cwd.now (F.told files.old)
        (F.faults files.old) (F.faults files.new) path }
    ensures kind { IfErr result IsOfAsking }
    ensures reads { WentAs (F.reads files.old) (F.reads files.new) result }
    ensures counted { F.faults files.old ≤ F.faults files.new }
    ensures kept { F.told files.new ≡ F.told files.old }
{
    match options_asked(alloc, words, env) {
        Ok(options) => project_for(alloc, options, env, cwd, files),
        Err(refusal) => Err(refusal),
    }
}

/// The project for a command with its options.
fn project_for<F: Files>(
    alloc: Global,
    options: Options,
    env: &Env,
    cwd: &Text,
    files: &mut F,
) -> Result<Asked, Refusal>
    ensures told { IfSome (F.told files.old) (λ contents.
        MeansFor options env.now cwd.now contents result) }
    ensures words { IfErr result (λ refusal. IsTrue (is_of_words refusal) → ⊥) }
    ensures options { IfOk result (λ asked. asked.options ≡ options) }
    ensures text { IfOk result (λ asked.
        IsLoaded options env.now cwd.now (F.told files.old) asked.loaded) }
    ensures keyed { IfOk result (λ asked. IsKeyed asked.loaded.project) }
    ensures read { (path : _) → result ≡ Err (Refusal.Load (LoadRefusal.ReadFault path))
        → IsFailedLoad options env.now cwd.now (F.told files.old)
        (F.faults files.old) (F.faults files.new) path }
    ensures kind { IfErr result IsOfAsking }
    ensures reads { WentAs (F.reads files.old) (F.reads files.new) result }
    ensures counted { F.faults files.old ≤ F.faults files.new }
    ensures kept { F.told files.new ≡ F.told files.old }
{
    match load_for(alloc, &options, env, cwd, files) {
        Ok(loaded) => {
            let project = project_loaded(alloc, &options, loaded);
            asked_with(options, project)
        }
        Err(refusal) => {
            // By a call, here and below: else the drop of each text would be proved at this place.
            drop(options);
            Err(Refusal::from(refusal))
        }
    }
}

/// What options load.
fn load_for<F: Files>(
    alloc: Global,
    options: &Options,
    env: &Env,
    cwd: &Text,
    files: &mut F,
) -> Result<Loaded, LoadRefusal>
    ensures given { loads.Gives (F.told files.old) result (load_for options.now env.now cwd.now) }
    ensures fault { (at : _) → result ≡ Err (LoadRefusal.ReadFault at)
        → Rose (F.faults files.old) (F.faults files.new) }
    ensures reads { loads.WentAs (F.reads files.old) (F.reads files.new) result }
    ensures counted { F.faults files.old ≤ F.faults files.new }
    ensures kept { F.told files.new ≡ F.told files.old }
{
    match request_for(alloc, options, env, cwd) {
        Ok(request) => {
            let loaded = load(alloc, files, &request);
            drop(request);
            loaded
        }
        Err(Memory) => Err(LoadRefusal::Memory),
    }
}

/// What options, variables and a working directory ask to be loaded.
fn request_for(
    alloc: Global,
    options: &Options,
    env: &Env,
    cwd: &Text,
) -> Result<LoadRequest, Memory>
    ensures { IfOk result (λ request. request ≡ request_for options.now env.now cwd.now) }
{
    Ok(LoadRequest {
        files: options.files.copy(alloc)?,
        project_directory: options.directory.copy(alloc)?,
        env_files: options.env_files.copy(alloc)?,
        env: env.copy(alloc)?,
        cwd: cwd.copy(alloc)?,
    })
}

/// What a call is asked, where a project was loaded for its options.
fn asked_with(options: Options, project: Result<LoadedProject, Refusal>) -> Result<Asked, Refusal>
    ensures { result ≡ asked_with options project }
{
    match project {
        Ok(loaded) => Ok(Asked { options, loaded }),
        Err(refusal) => {
            drop(options);
            Err(refusal)
        }
    }
}
